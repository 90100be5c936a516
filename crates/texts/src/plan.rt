// The rectangles of a plan, a line each, put at a place of a lent buffer, as far as it reaches.
ghost use Rattle.std.specs.Prelude.{◌≤◌, ◌<◌, length, get_or};
ghost use Rattle.floor.specs.Plans.{nowhere, rect_bytes};
ghost use Rattle.floor.specs.Texts.{line, rect_lines};
ghost use Rattle.drawing.specs.Rects.{rects_lent};
ghost use Rattle.letters.specs.Puts.{Puts};

use crate::line;
use drawing::Layout;

// The line of one rectangle.
fn put_rect(plan: &Layout, v: usize, out: &mut [u8], at: usize) -> usize
    requires { v < 100000 }
    ensures { Puts out.old at (line (rect_bytes (get_or (rects_lent plan.now) v nowhere))) out.new result
        × (length (line (rect_bytes (get_or (rects_lent plan.now) v nowhere))) ≤ 30) }
{
    let r = plan.rectangle(v);
    line::put_five(out, at, r.vertex, r.x1, r.y1, r.x2, r.y2)
}

// The lines of all rectangles, of which there are at most 259.
pub fn put_rects(plan: &Layout, out: &mut [u8], at: usize) -> usize
    ensures { Puts out.old at (rect_lines (rects_lent plan.now)) out.new result
        × (length (rect_lines (rects_lent plan.now)) ≤ 7770) }
{
    let many = plan.many();
    let mut next = at;
    for v in 0..many {
        next = put_rect(plan, v, out, next);
    }
    next
}
