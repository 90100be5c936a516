// Input read as a whole, and what a program says on standard error where its input cannot be read or its output cannot be written.
#![tactic(auto)]

ghost use Rattle.std.specs.Prelude.{◌<◌, length, take, IfOk};
ghost use Rattle.std.specs.Io.{ReadsAtMost};
ghost use Rattle.std.specs.Io.KnownBytes.{Consumes, IsAtEnd};

use std::io;
use std::io::Read;

// Reads until a buffer is full or the input is at its end; how many bytes of the buffer came from it.
pub fn read_full<R: Read>(input: &mut R, buffer: &mut [u8]) -> io::Result<usize>
    ensures within { ReadsAtMost result buffer.new }
    ensures bytes { IfOk result (λ n. Consumes (R.remaining input.old) (R.remaining input.new) (take n buffer.new)) }
    ensures end { IfOk result (λ n. n < length buffer.new → IsAtEnd (R.remaining input.new)) }
{
    let mut done: usize = 0;
    // A while, since each read gives a count of its own: read_exact takes the end for an error, and read_to_end takes a heap.
    while done < buffer.len() {
        let got = input.read(&mut buffer[done..])?;
        if got == 0 {
            return Ok(done);
        }
        done += got;
    }
    Ok(done)
}

// Says that a read has failed, and why.
pub fn unread(rt: &impl Eprint, why: io::Error) {
    let _ = eprintln!(rt; "the input cannot be read: {why}");
}

// Says where a write has failed, and why.
pub fn unwritten(rt: &impl Eprint, written: io::Result<()>) {
    if let Err(why) = written {
        let _ = eprintln!(rt; "the output cannot be written: {why}");
    }
}
