// Reads a job from standard input and prints the walls of its plan for the joiner, a line each: direction, number, beginning, end, room sides; or the number
// of the refusal, or that the input is too long.
#![tactic(auto)]

use std::io;

// The walls of a job, written out.
fn answer(rt: &impl Print, input: &[u8]) -> io::Result<()> {
    let mut out = letters::page();
    let length = texts::list_walls(input, &mut out);
    rt.write_all(&out[..length])
}

fn main(rt: HostRuntime) {
    let mut input = [0u8; 8193];
    match streams::read_full(&mut rt.stdin(), &mut input) {
        Ok(n) => streams::unwritten(&rt, answer(&rt, &input[..n])),
        Err(why) => streams::unread(&rt, why),
    }
}
