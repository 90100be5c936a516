// A good order in which to run the rules of one direction: one climb through it gives the numbers, or comes to a circle of walls and goes round it.
// Only the time goes by this order and never the answer, so the functions here say little more than that they are safe and return.
#![tactic(auto)]

ghost use Rattle.std.specs.Prelude.{◌≤◌, length};

use sheet::Sheet;
use stars::held::Held;

mod row; // row.rt: numbers put one behind the other
mod sheet; // sheet.rt: the sheet that the order is worked out on
mod parts; // parts.rt: the parts of a star, by kind
mod find; // find.rt: the walls, each with its sides
mod step; // step.rt: the steps from a wall to the walls behind it, taken
mod circle; // circle.rt: a circle among the walls that are left over
mod visits; // visits.rt: the visits of the walls, in order

// What an order is worked out from: the kinds of the contacts that join walls and of those that order them, the stars, and where the parts of each star start.
#[derive(Clone, Copy)]
pub struct Lay<'a> {
    pub far: u8,
    pub near: u8,
    pub cross: u8,
    pub stars: &'a Held<'a>,
    pub parts: &'a [[u16; 4]],
}

// A visit: the own rule of a room, given by the number of its star; or the rules of the entry at a place of it.
#[derive(Clone, Copy)]
pub enum Visit {
    Own(u8),
    Entry(u8, u16),
}

impl Visit {
    // The number of the star.
    fn star(self) -> u8 {
        match self {
            Visit::Own(star) => star,
            Visit::Entry(star, _) => star,
        }
    }
}

// How many visits were written, and where those of a circle of walls start, the last of all: without a circle at their end.
#[derive(Clone, Copy)]
pub struct Span {
    pub many: usize,
    pub again: usize,
}

// Where the entries of each kind start in every star, noted once for both directions.
pub fn note_parts(parts: &mut [[u16; 4]], stars: &Held) {
    for (i, starts) in parts.iter_mut().enumerate().take(stars.count) {
        parts::note_part(starts, stars, i);
    }
}

// The order of one direction: at most one visit for each side. The parts of the stars are noted before.
pub fn order_of(lay: &Lay, visits: &mut [Visit]) -> Span
    ensures { (result.again ≤ result.many) × (result.many ≤ length visits.old) }
{
    let mut sheet = Sheet::new();
    lay.count_steps(&mut sheet);
    lay.find_walls(&mut sheet);
    lay.take_walls(&mut sheet);
    let before = sheet.taken.len();
    lay.put_circle(&mut sheet);
    let again = lay.visit_walls(&mut sheet, visits, 0, before, 0);
    let ready = sheet.taken.len();
    let many = lay.visit_walls(&mut sheet, visits, before, ready, again);
    Span { many, again }
}
