// Reads a job behind its length, two bytes with the high byte first, and then a plan from standard input, and prints whether that plan is good for the
// job: yes, no, the number of the refusal, or that the input is too long.
#![tactic(auto)]

use std::io;

// Whether the plan is good for the job, written out.
fn answer(rt: &impl Print, input: &[u8]) -> io::Result<()> {
    let mut out = letters::page();
    let length = elsewhere::text::list_check(input, &mut out);
    rt.write_all(&out[..length])
}

fn main(rt: HostRuntime) {
    let mut input = [0u8; 16385];
    match streams::read_full(&mut rt.stdin(), &mut input) {
        Ok(n) => streams::unwritten(&rt, answer(&rt, &input[..n])),
        Err(why) => streams::unread(&rt, why),
    }
}
