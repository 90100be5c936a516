// Two rectangles at a side of a room, and two round its corner. The kind of a side: 0 above, 1 to the left, 2 below, 3 to the right;
// it stays a number, for a held entry may carry any byte, and what is promised speaks of each.
ghost use Rattle.std.specs.Prelude.{◌≡◌, leb};
ghost use Rattle.floor.specs.Plans.{overlap};
ghost use Rattle.floor.specs.Foreign.{stands_on, abut_on, corner_on};
ghost use Rattle.drawing.specs.Rects.{rect_in};

use drawing::Rect;

// Whether the stretches from a to b and from c to d have a length of at least 1 in common.
#[tactic(auto, unfolding(floor::specs::Plans::overlap))]
fn facing(a: u16, b: u16, c: u16, d: u16) -> bool
    ensures { result ≡ leb 1 (overlap a b c d) }
{
    a.max(c) < b.min(d)
}

// Whether s stands on a side of r, with a wall length of at least 1 between them.
#[tactic(auto, unfolding(floor::specs::Foreign::stands_on, floor::specs::Plans::on_line, floor::specs::Plans::facing, drawing::specs::Rects::rect_in))]
pub fn stands_on(kind: u8, r: Rect, s: Rect) -> bool
    ensures { result ≡ stands_on kind (rect_in r) (rect_in s) }
{
    let across = facing(r.x1, r.x2, s.x1, s.x2);
    let upward = facing(r.y1, r.y2, s.y1, s.y2);
    match kind {
        0 => r.y2 == s.y1 && across,
        1 => s.x2 == r.x1 && upward,
        2 => s.y2 == r.y1 && across,
        _ => r.x2 == s.x1 && upward,
    }
}

// Whether r and then s, among the neighbours on a side, lie end to end.
#[tactic(auto, unfolding(floor::specs::Foreign::abut_on, drawing::specs::Rects::rect_in))]
pub fn abut_on(kind: u8, r: Rect, s: Rect) -> bool
    ensures { result ≡ abut_on kind (rect_in r) (rect_in s) }
{
    match kind {
        0 => s.x2 == r.x1,
        1 => s.y2 == r.y1,
        2 => r.x2 == s.x1,
        _ => r.y2 == s.y1,
    }
}

// Whether of r, last on a side of u, and s, first on the next, one ends flush with u and the other goes past it.
#[tactic(auto, unfolding(floor::specs::Foreign::corner_on, drawing::specs::Rects::rect_in))]
pub fn corner_on(kind: u8, u: Rect, r: Rect, s: Rect) -> bool
    ensures { result ≡ corner_on kind (rect_in u) (rect_in r) (rect_in s) }
{
    match kind {
        0 => r.x1 == u.x1 && u.y2 < s.y2 || r.x1 < u.x1 && s.y2 == u.y2,
        1 => r.y1 == u.y1 && s.x1 < u.x1 || r.y1 < u.y1 && s.x1 == u.x1,
        2 => r.x2 == u.x2 && s.y1 < u.y1 || u.x2 < r.x2 && s.y1 == u.y1,
        _ => r.y2 == u.y2 && u.x2 < s.x2 || u.y2 < r.y2 && s.x2 == u.x2,
    }
}
