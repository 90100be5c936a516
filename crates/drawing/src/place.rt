// The rectangles by wall numbers.
ghost use Rattle.std.specs.Prelude.{◌≡◌, map, ◌+◌, ◌*◌, ◌-◌, ◌≤◌, ◌<◌, length, get_or};
ghost use Rattle.std.proofs.lemmas.List.Edits.{sets};
ghost use Rattle.floor.specs.Lists.{up_from};
ghost use Rattle.floor.specs.Plans.{room_rect};
ghost use Rattle.drawing.specs.Rects.{rect_in, flat, held_plan};
ghost use Rattle.drawing.specs.Drawn.{frame, plan_by, walled_by};

use crate::{Plan, Rect};
use walls::Sheet;

// The four numbers of a vertex's rectangle, put at its place.
#[tactic(auto, using(crate::proofs::Placing::four_put))]
fn put_four(rects: &mut [u16], v: usize, four: [u16; 4])
    requires { 4 * v + 4 ≤ length rects.old }
    ensures { rects.new ≡ sets rects.old (4 * v) four }
{
    let k = 4 * v;
    rects[k..k + 4].copy_from_slice(&four);
}

// A room spans its wall numbers.
#[tactic(auto, using(crate::proofs::Placing::room_walled))]
fn room_rect<'a>(xs: &'a [u16], ys: &'a [u16], v: usize) -> Rect
    ensures { rect_in result ≡ walled_by xs.now ys.now v }
{
    let sides = walls::sides_at(xs, ys, v);
    Rect {
        vertex: v,
        x1: sides.left.0,
        y1: sides.lower.0,
        x2: sides.right.0,
        y2: sides.upper.0,
    }
}

// The sides of the frame, one cell thick.
#[tactic(auto, using(crate::proofs::Placing::frame_put))]
fn put_frame(rects: &mut [u16], width: u16, height: u16)
    requires { (16 ≤ length rects.old) × (1 ≤ width) × (1 ≤ height) }
    ensures { rects.new ≡ sets rects.old 0 (flat (frame width height)) }
{
    let w = width;
    let h = height;
    put_four(rects, 0, [1, h - 1, w - 1, h]);
    put_four(rects, 1, [0, 0, 1, h]);
    put_four(rects, 2, [1, 0, w - 1, 1]);
    put_four(rects, 3, [w - 1, 0, w, h]);
}

// The rectangles of so many rooms.
fn put_rooms<'a>(rects: &mut [u16], xs: &'a [u16], ys: &'a [u16], count: usize)
    requires { 4 * (count + 4) ≤ length rects.old }
    ensures { rects.new ≡ sets rects.old 16 (flat (map (walled_by xs.now ys.now) (up_from 4 count))) }
{
    for i in 0..count {
        let r = room_rect(xs, ys, 4 + i);
        put_four(rects, 4 + i, [r.x1, r.y1, r.x2, r.y2]);
    }
}

// The plan of so many rooms on a sheet.
#[tactic(auto, using(crate::proofs::Placing::plan_put))]
pub fn plan_of<'a>(xs: &'a [u16], ys: &'a [u16], sheet: Sheet, count: usize) -> Plan
    requires { (sheet.width ≤ 250) × (1 ≤ sheet.width) × (sheet.height ≤ 250) × (1 ≤ sheet.height) × (count ≤ 60) }
    ensures { result ≡ held_plan (plan_by xs.now ys.now sheet count) }
{
    let mut rects = [0; 256];
    let width = sheet.width as u16;
    let height = sheet.height as u16;
    put_frame(&mut rects, width, height);
    put_rooms(&mut rects, xs, ys, count);
    Plan {
        rooms: count as u8,
        width,
        height,
        rects,
    }
}
