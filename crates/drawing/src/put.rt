// The rectangles of a plan, written as fields into a lent buffer.
ghost use Rattle.std.specs.Prelude.{◌≡◌, ◌∷◌, [], ◌+◌, ◌*◌, ◌%◌, ◌≤◌, ◌<◌, length};
ghost use Rattle.std.proofs.lemmas.List.Edits.{sets};
ghost use Rattle.floor.specs.Fields.{write_field};
ghost use Rattle.floor.specs.Plans.{rect_bytes, write_rects};
ghost use Rattle.drawing.specs.Rects.{rect_in, rects_lent, in_bytes};

use crate::{Layout, Rect};

// One byte of a number.
pub fn low_byte(x: u16) -> u8
    ensures { result ≡ x % 256 }
{
    (x % 256) as u8
}

// The field of one rectangle, put at its vertex's place.
#[tactic(auto, using(crate::proofs::Writing::rect_put))]
fn put_rect(out: &mut [u8], r: Rect)
    requires { (r.vertex < 65536) × (5 + 8 * r.vertex + 8 ≤ length out.old) }
    ensures { out.new ≡ sets out.old (5 + 8 * r.vertex) (in_bytes (write_field 4 (rect_bytes (rect_in r)))) }
{
    let at = 5 + 8 * r.vertex;
    fields::put_head(out, at, 4, 5);
    out[at + 3] = (r.vertex % 256) as u8;
    out[at + 4] = low_byte(r.x1);
    out[at + 5] = low_byte(r.y1);
    out[at + 6] = low_byte(r.x2);
    out[at + 7] = low_byte(r.y2);
}

// The fields of the rectangles, behind that of the sheet.
pub fn put_rects(out: &mut [u8], layout: &Layout)
    requires { 5 + 8 * (layout.now.rooms + 4) ≤ length out.old }
    ensures { out.new ≡ sets out.old 5 (in_bytes (write_rects (rects_lent layout.now))) }
{
    for v in 0..layout.many() {
        put_rect(out, layout.rect_at(v));
    }
}
