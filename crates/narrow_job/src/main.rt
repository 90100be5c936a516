// Reads a job from standard input, and writes the job with its floor narrowed, and on standard error how many turns were made;
// or the number of the refusal, or that the input is too long.
#![tactic(auto)]

ghost use Rattle.std.specs.Prelude.{◌≤◌, length};

use std::io;

// The number of a refusal, or the job's bytes and the turns: a narrowed job is as long as the job that came in.
fn show(rt: &(impl Print + Eprint), answer: usize, out: &[u8], long: usize) -> io::Result<()>
    requires { long ≤ length out.now }
{
    match replies::told(answer) {
        Ok(turns) => {
            rt.write_all(&out[..long])?;
            eprintln!(rt; "{turns} turns")
        }
        Err(k) => replies::refuse(rt, k),
    }
}

// What is written for a job.
fn answer(rt: &(impl Print + Eprint), input: &[u8]) -> io::Result<()> {
    if 8192 < input.len() {
        return replies::too_long(rt);
    }
    let mut out = letters::page();
    let answer = tirunoiwa::tirunoiwa_narrow(input, &mut out);
    show(rt, answer, &out, input.len())
}

fn main(rt: HostRuntime) {
    let mut input = [0u8; 8193];
    match streams::read_full(&mut rt.stdin(), &mut input) {
        Ok(n) => streams::unwritten(&rt, answer(&rt, &input[..n])),
        Err(why) => streams::unread(&rt, why),
    }
}
