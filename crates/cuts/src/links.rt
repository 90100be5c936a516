// Rooms linked by the marks of their lower left corners: for each mark the first room that has it, and for each room the next.
// The links lie in fixed memory, no heap, so a room is a number there, and 0 is none.
ghost use Rattle.std.specs.Prelude.{◌≡◌, ◌≤◌, ◌<◌, length, get_or, set, replicate};
ghost use Rattle.floor.specs.Cuts.ByWalls.{same_box, leaf_of};
ghost use Rattle.drawing.specs.Rects.{rect_in, rect_at};
ghost use Rattle.cuts.specs.Tasks.{rooms_from, leaf_room};
ghost use Rattle.cuts.specs.Links.{mark_of, corner_at, Linked, Joined, FirstAt, Follows};

use drawing::Rect;

// The rooms before vertex last, linked: their rectangles, the first room of each mark and the next of each room.
#[derive(Clone, Copy)]
pub struct Rooms<'a> {
    pub rects: &'a [u16],
    pub last: usize,
    pub heads: &'a [u16],
    pub next: &'a [u16],
}

// A corner's mark.
#[tactic(auto, unfolding(crate::specs::Links::mark_of))]
fn mark_of(x: u16, y: u16) -> usize
    ensures { (result ≡ mark_of x y) × (result < 127) }
{
    (11 * usize::from(x) + usize::from(y)) % 127
}

// The mark of a vertex's corner.
fn corner_at(rects: &[u16], v: usize) -> usize
    requires { v < 65536 }
    ensures { (result ≡ corner_at rects.now v) × (result < 127) }
{
    let x = rects.get(4 * v).copied().unwrap_or(0);
    let y = rects.get(4 * v + 1).copied().unwrap_or(0);
    mark_of(x, y)
}

// One room linked in front of those with its mark.
fn link_room<'a>(rects: &'a [u16], v: usize, heads: &mut [u16], next: &mut [u16])
    requires { (v < 65536) × (length heads.old ≡ 127) × (v < length next.old) }
    ensures { (next.new ≡ set next.old v (get_or heads.old (corner_at rects.now v) 0))
        × (heads.new ≡ set heads.old (corner_at rects.now v) v) }
{
    let x = corner_at(rects, v);
    next[v] = heads[x];
    heads[x] = v as u16;
}

// The rooms before vertex last linked, from the last to the first.
pub fn link_rooms<'a>(rects: &'a [u16], last: usize, heads: &mut [u16], next: &mut [u16])
    requires { (4 ≤ last) × (last < 65536) × (last ≤ length next.old) × (heads.old ≡ replicate 127 0) }
    ensures { Linked rects.now last 4 heads.new next.new }
{
    for v in (4..last).rev() {
        link_room(rects, v, heads, next);
    }
}

impl<'a> Rooms<'a> {
    // A number of the rectangles; 0 past the end.
    fn number_at(&self, k: usize) -> u16
        ensures { result ≡ get_or self.now.rects.now k 0 }
    {
        self.rects.get(k).copied().unwrap_or(0)
    }

    // The next room with a room's mark; 0 for none.
    fn next_of(&self, w: usize) -> usize
        ensures { result ≡ get_or self.now.next.now w 0 }
    {
        usize::from(self.next.get(w).copied().unwrap_or(0))
    }

    // Whether a vertex has the rectangle b.
    #[tactic(auto, unfolding(floor::specs::Cuts::ByWalls::same_box, drawing::specs::Rects::rect_in, drawing::specs::Rects::rect_at))]
    fn is_box(&self, v: usize, b: Rect) -> bool
        requires { v < 65536 }
        ensures { result ≡ same_box (rect_in b) (rect_at self.now.rects.now v) }
    {
        let x1 = self.number_at(4 * v);
        let y1 = self.number_at(4 * v + 1);
        let x2 = self.number_at(4 * v + 2);
        let y2 = self.number_at(4 * v + 3);
        b.x1 == x1 && b.y1 == y1 && b.x2 == x2 && b.y2 == y2
    }

    // The first room that has the rectangle b, found from the first with the mark of its corner, from link to link.
    fn room_from(&self, first: usize, b: Rect) -> Option<usize>
        requires { (self.now.last < 65536) × (4 ≤ self.now.last) × (0 < first)
            × FirstAt self.now.rects.now self.now.last 4 (mark_of b.x1 b.y1) first
            × Follows self.now.rects.now self.now.last (mark_of b.x1 b.y1) self.now.next.now }
        ensures { result ≡ leaf_room (leaf_of (rect_in b) (rooms_from self.now.last 4 self.now.rects.now)) }
    {
        let mut w: usize = first;
        // From link to link: which room comes next only the one before says.
        while w < self.last {
            if self.is_box(w, b) {
                return Some(w);
            }
            let n = self.next_of(w);
            if n <= w {
                return None;
            }
            w = n;
        }
        None
    }

    // The first room that has the rectangle b.
    pub fn room_by(&self, b: Rect) -> Option<usize>
        requires { Joined self.now }
        ensures { result ≡ leaf_room (leaf_of (rect_in b) (rooms_from self.now.last 4 self.now.rects.now)) }
    {
        let first = usize::from(self.heads[mark_of(b.x1, b.y1)]);
        if first == 0 {
            return None;
        }
        self.room_from(first, b)
    }
}
