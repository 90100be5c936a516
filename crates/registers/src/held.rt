// One wall of a register, read from its rows.
ghost use Rattle.std.specs.Prelude.{◌≡◌};
ghost use Rattle.registers.specs.Kept.{wall_in, wall_at};

use crate::put;

// A wall: its direction, 0 upright or 1 level as its byte says it, its number, where it begins and ends along its length, and how many room sides lie on it.
#[derive(Clone, Copy)]
pub struct Wall {
    pub direction: u8,
    pub number: u16,
    pub begins: u16,
    pub ends: u16,
    pub sides: u16,
}

// Wall i, of which the first so many stand upright; noughts past the rows.
pub fn wall_at(rows: &[u16], uprights: u16, i: usize) -> Wall
    ensures { wall_in result ≡ wall_at uprights rows.now i }
{
    let direction = put::direction(usize::from(uprights), i);
    if rows.len() <= i {
        return Wall {
            direction,
            number: 0,
            begins: 0,
            ends: 0,
            sides: 0,
        };
    }
    let k = 4 * i;
    Wall {
        direction,
        number: rows.get(k).copied().unwrap_or(0),
        begins: rows.get(k + 1).copied().unwrap_or(0),
        ends: rows.get(k + 2).copied().unwrap_or(0),
        sides: rows.get(k + 3).copied().unwrap_or(0),
    }
}
