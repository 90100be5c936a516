// The rectangles of a plan, read straight from its bytes. A byte past the end counts as 0.
ghost use Rattle.std.specs.Prelude.{◌≡◌, ◌+◌, ◌<◌, get_or};
ghost use Rattle.floor.specs.Plans.{rect_of};
ghost use Rattle.drawing.specs.Rects.{rect_in};
ghost use Rattle.elsewhere.specs.Placed.{rect_at, plan_drawn};

use crate::Drawn;
use drawing::Rect;

impl Drawn<'_> {
    // How many vertices such a plan has.
    pub fn many(&self) -> usize
        ensures { (result ≡ self.now.rooms + 4) × (result < 260) }
    {
        usize::from(self.rooms) + 4
    }

    // A byte as a coordinate.
    pub fn coordinate(&self, k: usize) -> u16
        ensures { result ≡ get_or self.now.bytes.now k 0 }
    {
        u16::from(self.bytes.get(k).copied().unwrap_or(0))
    }

    // The rectangle in a vertex's place.
    #[tactic(auto, unfolding(crate::specs::Placed::rect_at, drawing::specs::Rects::rect_in))]
    pub fn rect_at(&self, v: usize) -> Rect
        requires { v < 65536 }
        ensures { rect_in result ≡ rect_at self.now.bytes.now v }
    {
        let place = 5 + 8 * v;
        Rect {
            vertex: v,
            x1: self.coordinate(place + 4),
            y1: self.coordinate(place + 5),
            x2: self.coordinate(place + 6),
            y2: self.coordinate(place + 7),
        }
    }

    // The rectangle of a vertex; none for a number that is no vertex.
    #[tactic(auto, using(crate::proofs::Placing::rect_none, crate::proofs::Placing::rect_here))]
    pub fn rect_of(&self, v: usize) -> Rect
        ensures { rect_in result ≡ rect_of (plan_drawn self.now) v }
    {
        if self.many() <= v {
            return Rect {
                vertex: 0,
                x1: 0,
                y1: 0,
                x2: 0,
                y2: 0,
            };
        }
        self.rect_at(v)
    }
}
