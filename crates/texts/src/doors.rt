// The doors of a plan, a line each, put at a place of a lent buffer, as far as it reaches.
ghost use Rattle.std.specs.Prelude.{◌≡◌, ◌+◌, ◌-◌, ◌*◌, ◌≤◌, ◌<◌, length, get_or, drop};
ghost use Rattle.floor.specs.Plans.{nowhere, touch_of};
ghost use Rattle.floor.specs.Doors.{start_on, stop_on, door_at, doors_to, doors_among, door_lines};
ghost use Rattle.drawing.specs.Rects.{rect_in, rects_lent};
ghost use Rattle.letters.specs.Puts.{Puts};

use crate::line;
use drawing::{Layout, Rect, Touch};

// Where the stretch starts that two rectangles share along a side.
#[tactic(auto, unfolding(floor::specs::Doors::start_on, drawing::specs::Rects::rect_in))]
fn start_on(side: u8, r: Rect, s: Rect) -> u16
    ensures { result ≡ start_on side (rect_in r) (rect_in s) }
{
    match side {
        0 | 2 => r.x1.max(s.x1),
        _ => r.y1.max(s.y1),
    }
}

// Where it stops.
#[tactic(auto, unfolding(floor::specs::Doors::stop_on, drawing::specs::Rects::rect_in))]
fn stop_on(side: u8, r: Rect, s: Rect) -> u16
    ensures { result ≡ stop_on side (rect_in r) (rect_in s) }
{
    match side {
        0 | 2 => r.x2.min(s.x2),
        _ => r.y2.min(s.y2),
    }
}

// The line of the door between two rectangles; nothing where there is no wall between them.
fn put_door(r: Rect, s: Rect, out: &mut [u8], at: usize) -> usize
    requires { (r.vertex < 100) × (s.vertex < 100) }
    ensures { Puts out.old at (door_lines (door_at (rect_in r) (rect_in s) (touch_of (rect_in r) (rect_in s)))) out.new result
        × (length (door_lines (door_at (rect_in r) (rect_in s) (touch_of (rect_in r) (rect_in s)))) ≤ 26) }
{
    let touch = r.touch(s);
    let Touch::Wall(side, length) = touch else {
        return at;
    };
    let start = start_on(side, r, s);
    let stop = stop_on(side, r, s);
    line::put_six(out, at, r.vertex, s.vertex, side, start, stop, length)
}

// The lines of the doors from a vertex to those behind it.
fn put_doors_to(plan: &Layout, u: usize, out: &mut [u8], at: usize) -> usize
    requires { (plan.now.rooms ≤ 60) × (u < plan.now.rooms + 4) }
    ensures { Puts out.old at (door_lines (doors_to (get_or (rects_lent plan.now) u nowhere)
        (drop (u + 1) (rects_lent plan.now)))) out.new result
        × (length (door_lines (doors_to (get_or (rects_lent plan.now) u nowhere)
        (drop (u + 1) (rects_lent plan.now)))) ≤ 26 * (plan.now.rooms + 4 - (u + 1))) }
{
    let many = plan.many();
    let r = plan.rectangle(u);
    let mut next = at;
    for v in u + 1..many {
        let s = plan.rectangle(v);
        next = put_door(r, s, out, next);
    }
    next
}

// The lines of the doors between any two rooms, of which there are at most 60.
pub fn put_doors(plan: &Layout, out: &mut [u8], at: usize) -> usize
    requires { plan.now.rooms ≤ 60 }
    ensures { Puts out.old at (door_lines (doors_among (drop 4 (rects_lent plan.now)))) out.new result
        × (length (door_lines (doors_among (drop 4 (rects_lent plan.now)))) ≤ 46020) }
{
    let many = plan.many();
    let mut next = at;
    for u in 4..many {
        next = put_doors_to(plan, u, out, next);
    }
    next
}
