// Reads jobs, each in a wrapper, from standard input, and prints the season's totals: a line for each figure, or the number of the refusal where a wrapper is
// broken or there are more than 200.
#![tactic(auto)]

ghost use Rattle.std.specs.Prelude.{◌<◌};

use std::io;
use std::io::Read;

// Why a season has no totals: a wrapper is broken or one too many, or the input cannot be read.
#[derive(Debug, Drop)]
enum Fault {
    Broken,
    Unread(io::Error),
}

impl From<io::Error> for Fault {
    fn from(why: io::Error) -> Self {
        Fault::Unread(why)
    }
}

// The bytes of a job read, and added to the sums.
fn add_job(input: &mut impl Read, n: usize, sums: &mut [usize; 16]) -> Result<(), Fault>
    requires { n < 65536 }
{
    let mut job = [0u8; 65535];
    if streams::read_full(input, &mut job[..n])? < n {
        return Err(Fault::Broken);
    }
    season::add(sums, &job[..n]);
    Ok(())
}

// A wrapper read, its head and then its job; or whether the input was at its end.
fn add_next(input: &mut impl Read, sums: &mut [usize; 16]) -> Result<bool, Fault> {
    let mut bytes = [0u8; 3];
    let got = streams::read_full(input, &mut bytes)?;
    if got == 0 {
        return Ok(true);
    }
    let n = season::wrapper::head_of(&bytes[..got]).ok_or(Fault::Broken)?;
    add_job(input, n, sums)?;
    Ok(false)
}

// All wrappers read, at most 200, to the end of the input.
fn add_all(input: &mut impl Read, sums: &mut [usize; 16]) -> Result<(), Fault> {
    for _ in 0..200 {
        if add_next(input, sums)? {
            return Ok(());
        }
    }
    if streams::read_full(input, &mut [0])? == 0 {
        Ok(())
    } else {
        Err(Fault::Broken)
    }
}

// The figures, printed.
fn show(rt: &impl Print, sums: &[usize; 16]) -> io::Result<()> {
    let mut out = letters::page();
    let length = season::text::list_figures(sums, &mut out);
    rt.write_all(&out[..length])
}

fn main(rt: HostRuntime) {
    let mut sums = season::none();
    match add_all(&mut rt.stdin(), &mut sums) {
        Ok(()) => streams::unwritten(&rt, show(&rt, &sums)),
        Err(Fault::Broken) => streams::unwritten(&rt, replies::refuse(&rt, 19)),
        Err(Fault::Unread(why)) => streams::unread(&rt, why),
    }
}
