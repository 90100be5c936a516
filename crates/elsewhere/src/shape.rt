// Whether some bytes are shaped as a plan: the sheet's field, then that of each vertex in order, and nothing behind.
ghost use Rattle.std.specs.Prelude.{◌≡◌, cond, ◌<◌, drop};
ghost use Rattle.std.proofs.Math.Option.{none, some};
ghost use Rattle.floor.specs.Fields.{read_field};
ghost use Rattle.floor.specs.Foreign.{read_plan};
ghost use Rattle.elsewhere.specs.Placed.{place_of, plan_drawn};
ghost use Rattle.elsewhere.specs.Shapes.{has_shape, rect_shaped, rects_shaped};

use crate::Drawn;

impl Drawn<'_> {
    // Whether a field of this tag and this length stands at a place.
    #[tactic(auto, using(crate::proofs::Shaping::shape_none, crate::proofs::Shaping::shape_tag, crate::proofs::Shaping::shape_length, fields::proofs::Laws::in_order_lem))]
    fn has_field(&self, at: usize, tag: u8, length: usize) -> bool
        ensures { result ≡ has_shape tag length (read_field (drop at self.now.bytes.now)) }
    {
        let Some(field) = fields::reader::read_at(self.bytes, at) else {
            return false;
        };
        field.tag == tag && field.end - field.start == length
    }

    // Whether the field of a vertex's rectangle stands in its place.
    #[tactic(auto, using(crate::proofs::Shaping::rect_other, crate::proofs::Shaping::rect_names))]
    fn rect_shaped(&self, v: usize) -> bool
        requires { v < 65536 }
        ensures { result ≡ rect_shaped v (drop (place_of v) self.now.bytes.now) }
    {
        self.has_field(5 + 8 * v, 4, 5) && usize::from(self.coordinate(8 + 8 * v)) == v
    }

    // Whether those of so many vertices do, and nothing stands behind them.
    #[tactic(auto, using(crate::proofs::Shaping::fields_false, crate::proofs::Shaping::fields_next, crate::proofs::Shaping::fields_done))]
    fn rects_shaped(&self, many: usize) -> bool
        requires { many < 65536 }
        ensures { result ≡ rects_shaped 0 many (drop 5 self.now.bytes.now) }
    {
        for v in 0..many {
            if !self.rect_shaped(v) {
                return false;
            }
        }
        self.bytes.len() <= 5 + 8 * many
    }

    // Whether the bytes are a plan's, of so many rooms; what is then read of them stands in fixed places.
    #[tactic(auto, using(crate::proofs::Shaping::sheet_other, crate::proofs::Shaping::sheet_then))]
    pub fn shaped(&self) -> bool
        ensures { read_plan self.now.rooms self.now.bytes.now ≡ cond result (some (plan_drawn self.now)) none }
    {
        self.has_field(0, 3, 2) && self.rects_shaped(self.many())
    }
}
