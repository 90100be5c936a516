// Reads the text of a job from standard input and prints the bytes of the job, or the first wrong line, or that the input is too long.
#![tactic(auto)]

use std::io;

// The job of a text, written out.
fn answer(rt: &impl Print, input: &[u8]) -> io::Result<()> {
    let mut out = letters::page();
    let length = job_texts::job_of(input, &mut out);
    rt.write_all(&out[..length])
}

fn main(rt: HostRuntime) {
    let mut input = [0u8; 16385];
    match streams::read_full(&mut rt.stdin(), &mut input) {
        Ok(n) => streams::unwritten(&rt, answer(&rt, &input[..n])),
        Err(why) => streams::unread(&rt, why),
    }
}
