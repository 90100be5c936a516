// Does one thing to a job many times over, so that it can be timed, and prints the sum of what came of it.
// On standard input: n to number its walls, l to load it, t to turn a contact of it, s to make it narrower, q to ask of it; 0 to 9, the rounds as a power of ten;
// the contact's two rooms, a byte each; then the job.
#![tactic(auto)]

use board::{Board, Reply, Step};
use drawing::Touch;
use std::io;
use walls::Walls;

// What comes of so many rounds, added up; they are counted from 1 on.
fn summed<F: FnMut(u64) -> u64>(rounds: u64, mut round: F) -> u64
    requires { F.IsAlwaysCallable round }
{
    let mut sum = 0u64;
    for i in 1..=rounds {
        sum = sum.wrapping_add(round(i));
    }
    sum
}

// What the numbers of one direction count together, each so many times.
fn sum_of(numbers: &[u16; 128], times: u32) -> u64 {
    numbers.iter().fold(0u64, |sum, &n| {
        sum.wrapping_add(u64::from(times) * u64::from(n))
    })
}

// What all the numbers count together: an upright one once, and a level one a million times.
fn weight(walls: &Walls) -> u64 {
    let uprights = sum_of(&walls.uprights.0, 1);
    uprights.wrapping_add(sum_of(&walls.levels.0, 1_000_000))
}

// The walls of a job numbered, with no least sizes, 1 for a circle; nothing of a job that fails a test before.
fn numberings(job: &[u8], rounds: u64) -> u64 {
    let Ok(read) = jobs::read_job(job) else {
        return 0;
    };
    let stars = read.stars.lent();
    let none = stars::least::none_told();
    let sizes = none.lent();
    summed(
        rounds,
        |_| walls::walls_of(&stars, &sizes).map_or(1, |walls| weight(&walls)),
    )
}

// The length of wall that two vertices share; 0 for none.
fn shared(touch: Touch) -> u64 {
    let Touch::Wall(_, length) = touch else {
        return 0;
    };
    u64::from(length)
}

// 1 for what is done, a thousand times the number of a refusal, where a rectangle ends, the length of wall that is shared, 0 for none, the turns made.
fn mark(step: &Step) -> u64 {
    match step.reply {
        Ok(Reply::Done) => 1,
        Err(why) => 1000 * u64::from(why.number()),
        Ok(Reply::Spans(rect)) => u64::from(rect.x2),
        Ok(Reply::Touched(touch)) => shared(touch),
        Ok(Reply::Says(yes)) => u64::from(yes),
        Ok(Reply::Wrote(_)) => 0,
        Ok(Reply::Made(turns)) => turns as u64,
    }
}

// A board that holds a job.
fn loaded(job: &[u8]) -> Board {
    board::empty().load(job).board
}

// One vertex after the other asked for its rectangle, and how it touches u, so many times, and the marks added up.
fn asks(held: Board, u: usize, rounds: u64) -> u64 {
    summed(rounds, |i| {
        let v = (i % 64) as usize;
        let rect = held.rectangle(v);
        let touch = rect.board.touches(u, v);
        mark(&rect).wrapping_add(mark(&touch))
    })
}

// A power of ten.
fn power(digit: u8) -> u64 {
    match digit {
        b'0'..=b'8' => 10u64.pow(u32::from(digit - b'0')),
        _ => 1_000_000_000,
    }
}

// What is asked for, done: a load and a turn each on the board that the one before left, the rest each on the board as it was first.
fn done(what: u8, rounds: u64, u: usize, v: usize, job: &[u8]) -> u64 {
    match what {
        b'n' => numberings(job, rounds),
        b'l' => {
            let mut held = board::empty();
            summed(rounds, |_| {
                let step = held.load(job);
                held = step.board;
                mark(&step)
            })
        }
        b't' => {
            let mut held = loaded(job);
            summed(rounds, |_| {
                let step = held.turn(u, v);
                held = step.board;
                mark(&step)
            })
        }
        b's' => {
            let held = loaded(job);
            summed(rounds, |_| mark(&held.narrow()))
        }
        b'q' => asks(loaded(job), u, rounds),
        _ => 0,
    }
}

fn main(rt: HostRuntime) -> io::Result<()> {
    let mut input = [0u8; 1028];
    let n = streams::read_full(&mut rt.stdin(), &mut input)?;
    let &[what, digit, u, v, ref job @ ..] = &input[..n] else {
        return Ok(());
    };
    let sum = done(what, power(digit), usize::from(u), usize::from(v), job);
    println!(rt; "{sum}")
}
