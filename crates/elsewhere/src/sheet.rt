// Every rectangle inside the sheet, the frame, and a room between the frame's sides and of its least size.
ghost use Rattle.std.specs.Prelude.{◌≡◌, ◌+◌, ◌<◌};
ghost use Rattle.floor.specs.Lists.{all};
ghost use Rattle.floor.specs.Jobs.{size_of};
ghost use Rattle.floor.specs.Plans.{rect_of, inside};
ghost use Rattle.floor.specs.Foreign.{framed, between, large};
ghost use Rattle.stars.specs.Sized.{sizes_lent};
ghost use Rattle.drawing.specs.Rects.{rect_in};
ghost use Rattle.elsewhere.specs.Placed.{rects_at, plan_drawn, ends_stand, levels_lie, between_sides};

use crate::Drawn;
use drawing::Rect;
use stars::least::Least;

// Whether W and E stand at the ends of a sheet so wide and so high, full height.
#[tactic(auto, unfolding(crate::specs::Placed::ends_stand, drawing::specs::Rects::rect_in))]
fn ends_stand(width: u16, height: u16, w: Rect, e: Rect) -> bool
    ensures { result ≡ ends_stand width height (rect_in w) (rect_in e) }
{
    (w.x1 == 0 && w.y1 == 0 && w.y2 == height) && (e.x2 == width && e.y1 == 0 && e.y2 == height)
}

// Whether N and S lie between them, at the top and at the bottom of a sheet so high.
#[tactic(auto, unfolding(crate::specs::Placed::levels_lie, drawing::specs::Rects::rect_in))]
fn levels_lie(height: u16, n: Rect, w: Rect, s: Rect, e: Rect) -> bool
    ensures { result ≡ levels_lie height (rect_in n) (rect_in w) (rect_in s) (rect_in e) }
{
    (n.x1 == w.x2 && n.x2 == e.x1 && n.y2 == height) && (s.x1 == w.x2 && s.x2 == e.x1 && s.y1 == 0)
}

// Whether a rectangle lies between four sides.
#[tactic(auto, unfolding(crate::specs::Placed::between_sides, drawing::specs::Rects::rect_in))]
fn between_sides(n: Rect, w: Rect, s: Rect, e: Rect, r: Rect) -> bool
    ensures { result ≡ between_sides (rect_in n) (rect_in w) (rect_in s) (rect_in e) (rect_in r) }
{
    (w.x2 <= r.x1 && r.x2 <= e.x1) && (s.y2 <= r.y1 && r.y2 <= n.y1)
}

impl Drawn<'_> {
    // Whether every rectangle has at least a cell and lies inside the sheet; asked before any other test.
    #[tactic(auto, using(crate::proofs::Placing::inside_first, crate::proofs::Placing::inside_false, crate::proofs::Placing::inside_all))]
    pub fn all_inside(&self) -> bool
        ensures { result ≡ all (inside (plan_drawn self.now)) (rects_at (self.now.rooms + 4) 0 self.now.bytes.now) }
    {
        let many = self.many();
        let width = self.coordinate(3);
        let height = self.coordinate(4);
        for v in 0..many {
            if !self.rect_at(v).inside(width, height) {
                return false;
            }
        }
        true
    }

    // Whether the frame lies as in ours: W and E full height, N and S between.
    pub fn frame_lies(&self) -> bool
        ensures { result ≡ framed (plan_drawn self.now) }
    {
        let width = self.coordinate(3);
        let height = self.coordinate(4);
        let n = self.rect_of(0);
        let w = self.rect_of(1);
        let s = self.rect_of(2);
        let e = self.rect_of(3);
        ends_stand(width, height, w, e) && levels_lie(height, n, w, s, e)
    }

    // Whether the rectangle of a vertex lies between the sides of the frame.
    #[tactic(auto, using(crate::proofs::Placing::lies_is))]
    pub fn lies_between(&self, v: usize) -> bool
        ensures { result ≡ between (plan_drawn self.now) (rect_of (plan_drawn self.now) v) }
    {
        let n = self.rect_of(0);
        let w = self.rect_of(1);
        let s = self.rect_of(2);
        let e = self.rect_of(3);
        between_sides(n, w, s, e, self.rect_of(v))
    }

    // Whether a room, the i-th from the first, has at least its least size.
    pub fn is_large(&self, sizes: &Least, i: usize) -> bool
        requires { i < 65536 }
        ensures { result ≡ large (size_of (sizes_lent sizes.now) (4 + i)) (rect_of (plan_drawn self.now) (4 + i)) }
    {
        let r = self.rect_of(4 + i);
        let wide = usize::from(sizes.width_of(i));
        let tall = usize::from(sizes.height_of(i));
        usize::from(r.x1) + wide <= usize::from(r.x2)
            && usize::from(r.y1) + tall <= usize::from(r.y2)
    }
}
