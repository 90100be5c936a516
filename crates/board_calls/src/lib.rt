// Each call of a board by itself, exported, so that the stack it takes can be read off the built code. A board goes in by value and comes back, as it does
// between Rattle's own functions.
#![tactic(auto)]

use board::{Board, Reply, Step};
use drawing::{Plan, Touch};
use refusals::Refusal;
use registers::Register;
use stars::{Sizes, Stars};

// A board in C's layout.
#[repr(C)]
#[derive(Clone, Copy)]
pub struct Held {
    count: u8,
    ends: [u16; 60],
    nbr: [u16; 360],
    kind: [u8; 360],
    told: u8,
    sizes: [u8; 120],
    rooms: u8,
    width: u16,
    height: u16,
    rects: [u16; 256],
    uprights: u16,
    many: u16,
    rows: [u16; 256],
}

// What comes back from a call: the board, and the answer as one number.
#[repr(C)]
#[derive(Clone, Copy)]
pub struct Told {
    held: Held,
    answer: usize,
}

// The board that is handed in.
fn board_of(held: Held) -> Board {
    let ends = held.ends;
    let nbr = held.nbr;
    let kind = held.kind;
    let list = held.sizes;
    let rects = held.rects;
    let rows = held.rows;
    Board {
        stars: Stars {
            count: held.count,
            ends,
            nbr,
            kind,
        },
        sizes: Sizes {
            told: held.told,
            list,
        },
        plan: Plan {
            rooms: held.rooms,
            width: held.width,
            height: held.height,
            rects,
        },
        register: Register {
            uprights: held.uprights,
            many: held.many,
            rows,
        },
    }
}

// A touch is told by its length, none by 0.
fn length_of(touch: Touch) -> usize {
    let Touch::Wall(_, length) = touch else {
        return 0;
    };
    usize::from(length)
}

// A refusal is its number; a rectangle is told by its left side.
fn answer_of(reply: Result<Reply, Refusal>) -> usize {
    match reply {
        Ok(Reply::Done) => 256,
        Ok(Reply::Spans(rect)) => usize::from(rect.x1),
        Ok(Reply::Touched(touch)) => length_of(touch),
        Ok(Reply::Says(yes)) => usize::from(yes),
        Ok(Reply::Wrote(length)) => length,
        Ok(Reply::Made(turns)) => turns,
        Err(k) => usize::from(k.number()),
    }
}

// The board that is handed back.
fn tell(step: Step) -> Told {
    let board = step.board;
    let stars = board.stars;
    let plan = board.plan;
    let register = board.register;
    let ends = stars.ends;
    let nbr = stars.nbr;
    let kind = stars.kind;
    let sizes = board.sizes.list;
    let rects = plan.rects;
    let rows = register.rows;
    Told {
        held: Held {
            count: stars.count,
            ends,
            nbr,
            kind,
            told: board.sizes.told,
            sizes,
            rooms: plan.rooms,
            width: plan.width,
            height: plan.height,
            rects,
            uprights: register.uprights,
            many: register.many,
            rows,
        },
        answer: answer_of(step.reply),
    }
}

// `Board::load`.
#[unsafe(no_mangle)]
pub extern "C" fn board_load(held: Held, job: &[u8]) -> Told {
    tell(board_of(held).load(job))
}

// `Board::turn`.
#[unsafe(no_mangle)]
pub extern "C" fn board_turn(held: Held, u: usize, v: usize) -> Told {
    tell(board_of(held).turn(u, v))
}

// `Board::narrow`.
#[unsafe(no_mangle)]
pub extern "C" fn board_narrow(held: Held) -> Told {
    tell(board_of(held).narrow())
}

// `Board::rectangle`.
#[unsafe(no_mangle)]
pub extern "C" fn board_rectangle(held: Held, v: usize) -> Told {
    tell(board_of(held).rectangle(v))
}

// `Board::touches`.
#[unsafe(no_mangle)]
pub extern "C" fn board_touches(held: Held, u: usize, v: usize) -> Told {
    tell(board_of(held).touches(u, v))
}

// `Board::write_job`.
#[unsafe(no_mangle)]
pub extern "C" fn board_write_job(held: Held, out: &mut [u8]) -> Told {
    tell(board_of(held).write_job(out))
}

// `Board::write_plan`.
#[unsafe(no_mangle)]
pub extern "C" fn board_write_plan(held: Held, out: &mut [u8]) -> Told {
    tell(board_of(held).write_plan(out))
}

// `Board::write_walls`.
#[unsafe(no_mangle)]
pub extern "C" fn board_write_walls(held: Held, out: &mut [u8]) -> Told {
    tell(board_of(held).write_walls(out))
}

// `Board::slices`.
#[unsafe(no_mangle)]
pub extern "C" fn board_slices(held: Held) -> Told {
    tell(board_of(held).slices())
}

// `Board::write_cuts`.
#[unsafe(no_mangle)]
pub extern "C" fn board_write_cuts(held: Held, out: &mut [u8]) -> Told {
    tell(board_of(held).write_cuts(out))
}
