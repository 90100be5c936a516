// Boards made by hand: every call answers of what stands in them, by one total definition, and stops at none.
#![tactic(auto)]

use board::{Board, Reply, Step};
use drawing::{Rect, Touch};
use refusals::Refusal;
use std::{fmt, io};

// How two vertices touch: the side and the length, or none.
#[derive(Clone, Copy)]
struct Touched(Touch);

impl fmt::Display for Touched {
    fn fmt<W: fmt::Write>(&self, f: &mut fmt::Formatter<W>) -> fmt::Result {
        let Touch::Wall(side, length) = self.0 else {
            return write!(f, "none");
        };
        write!(f, "touch {side} {length}")
    }
}

// What a call answered, as text.
#[derive(Clone, Copy)]
struct Told(Result<Reply, Refusal>);

impl fmt::Display for Told {
    fn fmt<W: fmt::Write>(&self, f: &mut fmt::Formatter<W>) -> fmt::Result {
        match self.0 {
            Err(why) => write!(f, "refused {}", why.number()),
            Ok(Reply::Done) => write!(f, "done"),
            Ok(
                Reply::Spans(
                    Rect {
                        vertex,
                        x1,
                        y1,
                        x2,
                        y2,
                    },
                ),
            ) => write!(f, "{vertex} {x1} {y1} {x2} {y2}"),
            Ok(Reply::Touched(touch)) => write!(f, "{}", Touched(touch)),
            Ok(Reply::Says(yes)) => write!(f, "{}", if yes { "yes" } else { "no" }),
            Ok(Reply::Wrote(length)) => write!(f, "bytes {length}"),
            Ok(Reply::Made(turns)) => write!(f, "turns {turns}"),
        }
    }
}

// What was asked and what a call answered, on a line; the board is handed on.
fn show(rt: &impl Print, asked: &str, step: Step) -> io::Result<Board> {
    let told = Told(step.reply);
    println!(rt; "  {asked}: {told}")?;
    Ok(step.board)
}

// What was asked and what a writing answered, and one byte of what was written, with its name, where anything was.
fn show_written(
    rt: &impl Print,
    asked: &str,
    step: Step,
    name: &str,
    byte: u8,
) -> io::Result<Board> {
    let board = show(rt, asked, step)?;
    if let Ok(Reply::Wrote(_)) = step.reply {
        println!(rt; "  {name}: {byte}")?;
    }
    Ok(board)
}

// A board, asked by every call but load.
fn show_board(rt: &impl Print, name: &str, board: Board) -> io::Result<()> {
    println!(rt; "{name}:")?;
    show(rt, "rectangle of 5", board.rectangle(5))?;
    show(rt, "5 seen from 4", board.touches(4, 5))?;
    let mut out = [0u8; 4096];
    show(rt, "the job", board.write_job(&mut out))?;
    let plan = board.write_plan(&mut out);
    show_written(rt, "the plan", plan, "its width", out[3])?;
    let mut list = [0u8; 4096];
    let walls = board.write_walls(&mut list);
    show_written(rt, "the walls", walls, "where the first ends", list[6])?;
    show(rt, "cut straight", board.slices())?;
    let mut tree = [0u8; 4096];
    let cuts = board.write_cuts(&mut tree);
    show_written(rt, "the cuts", cuts, "where the first is", tree[4])?;
    let turned = show(rt, "5 and 6 turned", board.turn(5, 6))?;
    show(rt, "rectangle of 5", turned.rectangle(5))?;
    Ok(())
}

// No room is counted: nothing is held, whatever else stands there.
fn uncounted(board: Board) -> Board {
    let mut next = board;
    next.stars.count = 0;
    next
}

// The stars of the board, and no plan and no walls: a vertex past its rectangles lies nowhere.
fn unplanned(board: Board) -> Board {
    Board {
        plan: drawing::no_plan(),
        register: registers::no_register(),
        ..board
    }
}

// Room 5 a cell wider, and the sheet and the first wall by 256, of which a byte is written.
fn wider(board: Board) -> Board {
    let mut next = board;
    next.plan.width = 260;
    next.plan.rects[22] = 4;
    next.register.rows[2] = 260;
    next
}

// The star of the last room ends past the arrays.
fn overrun(board: Board) -> Board {
    let mut next = board;
    next.stars.ends[3] = 65535;
    next
}

// Sizes told of more rooms than there are, the first of them no size at all: a room is then asked for a cell.
fn sized(board: Board) -> Board {
    let mut next = board;
    next.sizes.told = 255;
    next.sizes.list[3] = 2;
    next
}

// As many rooms as a byte counts, and more walls than rows.
fn crowded(board: Board) -> Board {
    let mut next = board;
    next.stars.count = 255;
    next.plan.rooms = 255;
    next.register.many = 300;
    next
}

fn main(rt: HostRuntime) -> io::Result<()> {
    let loaded = board::empty().load(
        b"\x01\x00\x01\x04\x02\x00\x08\x00\x00\x01\x01\x06\x02\x05\x03\x02\x00\x0a\x00\x00\x04\x01\x06\x01\x07\x02\x03\x03\x02\x00\x0a\x04\x00\x01\x01\x02\x02\x07\x03\x05\x03\x02\x00\x08\x05\x00\x06\x01\x02\x02\x03\x03",
    );
    let held = loaded.board;
    show_board(&rt, "as loaded", held)?;
    show_board(&rt, "no room counted", uncounted(held))?;
    show_board(&rt, "stars and no plan", unplanned(held))?;
    show_board(&rt, "a cell wider", wider(held))?;
    show_board(&rt, "a star ends past the arrays", overrun(held))?;
    show_board(&rt, "more sizes than rooms", sized(held))?;
    let many = crowded(held);
    show_board(&rt, "more rooms than stars", many)?;
    show(&rt, "rectangle of 258", many.rectangle(258))?;
    show(&rt, "rectangle of 259", many.rectangle(259))?;
    Ok(())
}
