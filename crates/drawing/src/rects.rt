// One rectangle, and two: whether they share a cell, how they touch, and whether they meet only at a corner.
ghost use Rattle.std.specs.Prelude.{◌≡◌, ◌&&◌, ◌<◌, eqb, leb};
ghost use Rattle.floor.specs.Plans.{overlap, abut, apart, area, touch_of, corner, follows};
ghost use Rattle.drawing.specs.Rects.{rect_in, touch_in};
ghost use Rattle.drawing.specs.Tests.{inside_sheet, away};

use crate::{Rect, Touch};

// How far the stretches from a to b and from c to d reach over one another.
#[tactic(auto, unfolding(floor::specs::Plans::overlap))]
pub fn overlap(a: u16, b: u16, c: u16, d: u16) -> u16
    ensures { result ≡ overlap a b c d }
{
    b.min(d).saturating_sub(a.max(c))
}

// Whether the stretches touch end to end.
#[tactic(auto, unfolding(floor::specs::Plans::abut))]
fn abut(a: u16, b: u16, c: u16, d: u16) -> bool
    ensures { result ≡ abut a b c d }
{
    b == c || d == a
}

// Whether the stretches neither reach over one another nor touch.
#[tactic(auto, unfolding(crate::specs::Tests::away))]
pub(crate) fn away(a: u16, b: u16, c: u16, d: u16) -> bool
    ensures { result ≡ away a b c d }
{
    overlap(a, b, c, d) == 0 && !abut(a, b, c, d)
}

// Whether two sides lie on one line and share a length of at least 1.
fn walled(a: u16, b: u16, length: u16) -> bool
    ensures { result ≡ (eqb a b && leb 1 length) }
{
    a == b && 1 <= length
}

impl Rect {
    // Whether two rectangles share no cell.
    #[tactic(auto, unfolding(floor::specs::Plans::apart, crate::specs::Rects::rect_in))]
    pub fn apart(self, s: Rect) -> bool
        ensures { result ≡ apart (rect_in self) (rect_in s) }
    {
        overlap(self.x1, self.x2, s.x1, s.x2) == 0 || overlap(self.y1, self.y2, s.y1, s.y2) == 0
    }

    // How another touches this one: the side on which it stands, seen from this one, and the length of wall they share. The sides are asked in turn.
    #[tactic(auto, unfolding(crate::specs::Rects::touch_in, crate::specs::Rects::rect_in, floor::specs::Plans::touch_of, floor::specs::Plans::touch_on, floor::specs::Plans::on_line, floor::specs::Plans::facing))]
    pub fn touch(self, s: Rect) -> Touch
        ensures { touch_in result ≡ touch_of (rect_in self) (rect_in s) }
    {
        let across = overlap(self.x1, self.x2, s.x1, s.x2);
        let upward = overlap(self.y1, self.y2, s.y1, s.y2);
        if walled(self.y2, s.y1, across) {
            return Touch::Wall(0, across);
        }
        if walled(s.x2, self.x1, upward) {
            return Touch::Wall(1, upward);
        }
        if walled(s.y2, self.y1, across) {
            return Touch::Wall(2, across);
        }
        if walled(self.x2, s.x1, upward) {
            return Touch::Wall(3, upward);
        }
        Touch::Clear
    }

    // Whether two rectangles meet only at a corner point.
    #[tactic(auto, unfolding(floor::specs::Plans::corner, crate::specs::Rects::rect_in))]
    pub fn corner(self, s: Rect) -> bool
        ensures { result ≡ corner (rect_in self) (rect_in s) }
    {
        abut(self.x1, self.x2, s.x1, s.x2) && abut(self.y1, self.y2, s.y1, s.y2)
    }

    // How many cells a rectangle has.
    #[tactic(auto, unfolding(floor::specs::Plans::area, crate::specs::Rects::rect_in), using(crate::proofs::Two::product))]
    pub fn area(self) -> usize
        ensures { (result ≡ area (rect_in self)) × (result < 4294967296) }
    {
        usize::from(self.x2.saturating_sub(self.x1)) * usize::from(self.y2.saturating_sub(self.y1))
    }

    // Whether a rectangle has at least a cell and lies inside a sheet so wide and so high.
    #[tactic(auto, unfolding(crate::specs::Tests::inside_sheet, crate::specs::Rects::rect_in))]
    pub fn inside(self, width: u16, height: u16) -> bool
        ensures { result ≡ inside_sheet width height (rect_in self) }
    {
        self.x1 < self.x2 && self.y1 < self.y2 && self.x2 <= width && self.y2 <= height
    }

    // Whether, after this one, s comes next among the neighbours of a kind. Kinds are numbers here: held stars may carry any byte, and the promise speaks of each.
    #[tactic(auto, unfolding(floor::specs::Plans::follows, crate::specs::Rects::rect_in))]
    pub fn follows(self, kind: u8, s: Rect) -> bool
        ensures { result ≡ follows kind (rect_in self) (rect_in s) }
    {
        match kind {
            0 => s.x1 < self.x1,
            1 => s.y1 < self.y1,
            2 => self.x1 < s.x1,
            _ => self.y1 < s.y1,
        }
    }
}
