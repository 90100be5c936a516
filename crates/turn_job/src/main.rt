// Reads two rooms, two bytes each with the high byte first, and a job from standard input, and writes the job with their contact turned;
// or the number of the refusal, or that the input is too long.
#![tactic(auto)]

use std::io;

// What is written for two rooms and a job.
fn answer(rt: &impl Print, input: &[u8]) -> io::Result<()> {
    let Some((&[u_high, u_low, v_high, v_low], job)) = input.split_first_chunk::<4>() else {
        return replies::refuse(rt, 1);
    };
    if 8192 < job.len() {
        return replies::too_long(rt);
    }
    let u = u16::from_be_bytes([u_high, u_low]);
    let v = u16::from_be_bytes([v_high, v_low]);
    let mut out = letters::page();
    let answer = tirunoiwa::tirunoiwa_turned(job, usize::from(u), usize::from(v), &mut out);
    replies::show(rt, answer, &out)
}

fn main(rt: HostRuntime) {
    let mut input = [0u8; 8197];
    match streams::read_full(&mut rt.stdin(), &mut input) {
        Ok(n) => streams::unwritten(&rt, answer(&rt, &input[..n])),
        Err(why) => streams::unread(&rt, why),
    }
}
