// The marks of the walls: W1, W2, .. upright and L1, L2, .. level, in the order of the joiner's list, so that joiner and crew speak of the same wall.
ghost use Rattle.std.specs.Prelude.{◌≤◌};

use crate::place::Sheet;
use crate::stretches;
use crate::stretches::{Look, Stretch, Way};
use drawing::Layout;
use registers::Register;
use std::{fmt, io};

// A wall: where it runs, its place among those of its direction, and the room sides on it.
#[derive(Clone, Copy)]
struct Wall {
    stretch: Stretch,
    nth: usize,
    sides: u16,
}

// The mark: a letter for the direction and a number.
impl fmt::Display for Wall {
    fn fmt<W: fmt::Write>(&self, f: &mut fmt::Formatter<W>) -> fmt::Result {
        let nth = self.nth;
        match self.stretch.way {
            Way::Upright => write!(f, "W{nth}"),
            Way::Level => write!(f, "L{nth}"),
        }
    }
}

// Half the room that a mark takes along its wall: W is wider than L, and two digits are wider than one.
fn half(wall: Wall, size: usize) -> usize
    requires { size ≤ 12 }
    ensures { result ≤ 14 }
{
    match wall.stretch.way {
        Way::Upright if wall.nth < 10 => 5 * size / 6 + 1,
        Way::Upright => 7 * size / 6,
        Way::Level if wall.nth < 10 => 2 * size / 3 + 1,
        Way::Level => size,
    }
}

// A wall, marked in its middle, on white. Where the pointer rests on the mark, it is shown where the wall runs, how long it is and how many room sides lie on it.
fn mark_wall(rt: &impl Print, sheet: Sheet, wall: Wall) -> io::Result<()> {
    let Wall { stretch, sides, .. } = wall;
    let look = Look {
        class: "wall",
        half: half(wall, stretches::size_of(sheet)),
        ground: "#ffffff",
        text: "",
    };
    let length = stretch.length();
    stretches::mark(
        rt,
        sheet,
        stretch,
        look,
        format_args!("wall {wall}, {stretch}, length {length}, room sides {sides}"),
        wall,
    )
}

// Wall i of a register: the upright ones come first, and each direction is counted from 1 on.
fn wall_at(register: &Register, i: usize) -> Wall
    requires { i ≤ 65535 }
{
    let held = registers::held::wall_at(&register.rows, register.uprights, i);
    let uprights = usize::from(register.uprights);
    let (way, nth) = if i < uprights {
        (Way::Upright, i + 1)
    } else {
        (Way::Level, i - uprights + 1)
    };
    Wall {
        stretch: Stretch {
            way,
            line: held.number,
            from: held.begins,
            to: held.ends,
        },
        nth,
        sides: held.sides,
    }
}

// All walls of so many rooms on a sheet, marked.
pub fn mark_all(rt: &impl Print, sheet: Sheet, plan: &Layout) -> io::Result<()> {
    let register = registers::register_of(plan.rects, plan.rooms, plan.width, plan.height);
    for i in 0..usize::from(register.many) {
        mark_wall(rt, sheet, wall_at(&register, i))?;
    }
    Ok(())
}
