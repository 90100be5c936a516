// Reads a job from standard input and writes the bytes of its plan; or the number of the refusal, or that the input is too long.
#![tactic(auto)]

use std::io;

// What is written for a job.
fn answer(rt: &impl Print, input: &[u8]) -> io::Result<()> {
    if 8192 < input.len() {
        return replies::too_long(rt);
    }
    let mut out = letters::page();
    let answer = tirunoiwa::tirunoiwa_plan(input, &mut out);
    replies::show(rt, answer, &out)
}

fn main(rt: HostRuntime) {
    let mut input = [0u8; 8193];
    match streams::read_full(&mut rt.stdin(), &mut input) {
        Ok(n) => streams::unwritten(&rt, answer(&rt, &input[..n])),
        Err(why) => streams::unread(&rt, why),
    }
}
