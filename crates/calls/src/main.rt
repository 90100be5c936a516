// Reads calls from standard input, a field each, makes them on one board, and prints a line an answer.
#![tactic(auto)]

use board::Board;
use call::{Call, What};
use refusals::Refusal;
use std::io;
use std::io::Read;
use told::{Hex, Refused, Told, Yes};

mod call; // call.rt: which call a field asks for
mod told; // told.rt: what a call answered, as text

// The stream is broken, which is said on the last line.
fn broken(rt: &impl Print) -> io::Result<Option<Board>> {
    rt.println("broken stream")?;
    Ok(None)
}

// A writing into the front of a buffer whose bytes are known before, of which so many are lent.
fn write(rt: &impl Print, board: Board, what: What, size: usize) -> io::Result<Option<Board>> {
    let mut buffer = [0xaau8; 2048];
    let Some(lent) = buffer.get_mut(..size) else {
        return broken(rt);
    };
    let step = match what {
        What::Job => board.write_job(lent),
        What::Plan => board.write_plan(lent),
        What::Walls => board.write_walls(lent),
        What::Cuts => board.write_cuts(lent),
    };
    rt.println(Told { step: &step, lent })?;
    Ok(Some(step.board))
}

// The bytes of a star of a job that is not loaded, or a dash where there are none.
fn show_star(rt: &impl Print, star: &[u8]) -> io::Result<()> {
    if star.is_empty() {
        return rt.println("-");
    }
    rt.println(Hex(star))
}

// What is answered of a plan drawn elsewhere: yes, no, or the number of a refusal.
fn show_verdict(rt: &impl Print, verdict: Result<bool, Refusal>) -> io::Result<()> {
    match verdict {
        Ok(good) => rt.println(Yes(good)),
        Err(why) => rt.println(Refused(why)),
    }
}

// One call made, and its answer printed on a line; the board is handed on, none where the stream is broken.
fn make(rt: &impl Print, board: Board, call: Call) -> io::Result<Option<Board>> {
    let step = match call {
        Call::Load(job) => board.load(job),
        Call::Turn(u, v) => board.turn(u, v),
        Call::Narrow => board.narrow(),
        Call::Rectangle(v) => board.rectangle(v),
        Call::Touch(u, v) => board.touches(u, v),
        Call::Slices => board.slices(),
        Call::Write(what, size) => return write(rt, board, what, size),
        Call::Star(room, job) => {
            show_star(rt, jobs::raw_star(job, room))?;
            return Ok(Some(board));
        }
        Call::Check(job, plan) => {
            show_verdict(rt, elsewhere::judge(job, plan))?;
            return Ok(Some(board));
        }
    };
    rt.println(Told {
        step: &step,
        lent: b"",
    })?;
    Ok(Some(step.board))
}

// One field read, and its call made; none where the stream ends. The input may end before a field, not in it.
fn take_field(
    rt: &impl Print,
    input: &mut impl Read,
    board: Board,
    space: &mut [u8; 65535],
) -> io::Result<Option<Board>> {
    let mut head = [0u8; 3];
    let got = streams::read_full(input, &mut head)?;
    if got == 0 {
        return Ok(None);
    }
    let [tag, high, low] = head;
    let length = call::word(high, low);
    if got < 3 || streams::read_full(input, &mut space[..length])? < length {
        return broken(rt);
    }
    match Call::of(tag, &space[..length]) {
        Some(call) => make(rt, board, call),
        None => broken(rt),
    }
}

// Field after field. A proved loop has to end, so it counts to a number that no stream uses up.
fn main(rt: HostRuntime) -> io::Result<()> {
    let mut input = rt.stdin();
    let mut board = board::empty();
    let mut space = [0u8; 65535];
    for _ in 0..u64::MAX {
        match take_field(&rt, &mut input, board, &mut space)? {
            Some(next) => board = next,
            None => return Ok(()),
        }
    }
    Ok(())
}
