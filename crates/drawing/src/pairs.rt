// What the drawing test asks of any two rectangles.
ghost use Rattle.std.specs.Prelude.{◌≡◌, ◌+◌, ◌-◌};
ghost use Rattle.floor.specs.Lists.{all, pairwise};
ghost use Rattle.floor.specs.Plans.{next_side, joined};
ghost use Rattle.stars.specs.Held.{job_held};
ghost use Rattle.drawing.specs.Rects.{rect_in, rects_in, rects_lent};
ghost use Rattle.drawing.specs.Tests.{pair_ok};

use crate::rects::away;
use crate::{Layout, Rect, Touch};
use stars::held::Held;

// Whether v is the next side of the frame after u, counterclockwise.
#[tactic(auto, unfolding(floor::specs::Plans::next_side))]
fn next_side(u: usize, v: usize) -> bool
    ensures { result ≡ next_side u v }
{
    u < 4 && v == (u + 1) % 4
}

// Whether the job joins two vertices, or they are neighbouring sides of the frame.
#[tactic(auto, unfolding(floor::specs::Plans::joined))]
fn joined(stars: &Held, u: usize, v: usize) -> bool
    ensures { result ≡ joined (job_held stars.now) u v }
{
    stars.names(u, v) || stars.names(v, u) || next_side(u, v) || next_side(v, u)
}

// Whether two rectangles share no cell, share a wall only where they are joined, and do not meet only at a corner.
fn pair_ok(stars: &Held, r: Rect, s: Rect) -> bool
    ensures { result ≡ pair_ok (job_held stars.now) (rect_in r) (rect_in s) }
{
    // Most pairs lie away from one another, and nothing more is asked of them.
    if away(r.x1, r.x2, s.x1, s.x2) || away(r.y1, r.y2, s.y1, s.y2) {
        return true;
    }
    let Touch::Wall(_, _) = r.touch(s) else {
        return false; // near without a wall: they share a cell, or meet only at a corner
    };
    joined(stars, r.vertex, s.vertex)
}

// Whether a rectangle does so with every one from a vertex on.
fn later_ok(layout: &Layout, stars: &Held, first: usize, r: Rect) -> bool
    ensures { result ≡ all (pair_ok (job_held stars.now) (rect_in r))
        (rects_in (layout.now.rooms + 4 - first) first layout.now.rects.now) }
{
    for v in first..layout.many() {
        if !pair_ok(stars, r, layout.rect_at(v)) {
            return false;
        }
    }
    true
}

// Whether any two of the rectangles do.
pub fn all_pairs(layout: &Layout, stars: &Held) -> bool
    ensures { result ≡ pairwise (pair_ok (job_held stars.now)) (rects_lent layout.now) }
{
    for v in 0..layout.many() {
        if !later_ok(layout, stars, v + 1, layout.rect_at(v)) {
            return false;
        }
    }
    true
}
