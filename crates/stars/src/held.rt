// The held stars as they are lent: where each starts and ends, its entries, and test 6. A number past the end of a slice counts as 0.
ghost use Rattle.std.specs.Prelude.{◌≡◌, ◌&&◌, ◌+◌, ◌-◌, ◌≤◌, ◌<◌, eqb, length, get_or};
ghost use Rattle.floor.specs.Jobs.{star_of, names, lists, test6};
ghost use Rattle.stars.specs.Held.{to_at, entry_at, cells, end_of, start_of, held_star, job_held, no_stars, place_in, place_after, answers, star_answers};

use crate::Stars;

// The stars of a job as workers take them: how many there are, where each ends, and the neighbours and kinds, one star behind the other.
#[derive(Clone, Copy)]
pub struct Held<'a> {
    pub count: usize,
    pub ends: &'a [u16],
    pub nbr: &'a [u16],
    pub kind: &'a [u8],
}

// No stars.
pub fn none_held() -> Stars
    ensures { result ≡ no_stars }
{
    Stars {
        count: 0,
        ends: [0u16; 60],
        nbr: [0u16; 360],
        kind: [0u8; 360],
    }
}

// Where a star ends, of stars that lie in so many places at most.
#[tactic(auto, unfolding(crate::specs::Held::end_of))]
pub fn end_of(ends: &[u16], most: usize, i: usize) -> usize
    ensures { (result ≡ end_of ends.now most i) × (result ≤ most) }
{
    let end = ends.get(i).copied().unwrap_or(0);
    usize::from(end).min(most)
}

// Where a star starts, of such stars: where the one before it ends.
pub fn start_of(ends: &[u16], most: usize, i: usize) -> usize
    ensures { (result ≡ start_of ends.now most i) × (result ≤ most) }
{
    if i == 0 {
        return 0;
    }
    end_of(ends, most, i - 1)
}

// The place behind one of a star that lies from a place to an end; behind the last the first.
pub fn place_after(from: usize, end: usize, k: usize) -> usize
    ensures { result ≡ place_after from end k }
{
    if k < end {
        let next = k + 1;
        if next < end {
            return next;
        }
    }
    from
}

impl<'a> Held<'a> {
    // Where star i ends.
    pub fn end_of(&self, i: usize) -> usize
        ensures { (result ≡ end_of self.now.ends.now (length self.now.nbr.now) i) × (result ≤ length self.now.nbr.now) }
    {
        end_of(self.ends, self.nbr.len(), i)
    }

    // Where star i starts.
    pub fn start_of(&self, i: usize) -> usize
        ensures { (result ≡ start_of self.now.ends.now (length self.now.nbr.now) i) × (result ≤ length self.now.nbr.now) }
    {
        start_of(self.ends, self.nbr.len(), i)
    }

    // How many entries star i has.
    pub fn star_length(&self, i: usize) -> usize
        ensures { (result ≡ end_of self.now.ends.now (length self.now.nbr.now) i - start_of self.now.ends.now (length self.now.nbr.now) i)
            × (start_of self.now.ends.now (length self.now.nbr.now) i + result ≤ length self.now.nbr.now) }
    {
        self.end_of(i).saturating_sub(self.start_of(i))
    }

    // The neighbour at a place.
    #[tactic(auto, unfolding(crate::specs::Held::to_at))]
    pub fn to_at(&self, k: usize) -> usize
        ensures { (result ≡ to_at self.now.nbr.now k) × (result < 256) }
    {
        usize::from(self.nbr.get(k).copied().unwrap_or(0)) % 256
    }

    // The kind at a place.
    pub fn kind_at(&self, k: usize) -> u8
        ensures { result ≡ get_or self.now.kind.now k 0 }
    {
        self.kind.get(k).copied().unwrap_or(0)
    }

    // The first place, from one to an end, whose entry names the vertex; a place no smaller than the end where none does.
    pub fn place_in(&self, from: usize, end: usize, v: usize) -> usize
        ensures { result ≡ place_in (end - from) from self.now.nbr.now v }
    {
        for k in from..end {
            if self.to_at(k) == v {
                return k;
            }
        }
        from.max(end)
    }

    // Whether the star of a vertex names another; a number that is no room's has no star.
    pub fn names(&self, v: usize, u: usize) -> bool
        ensures { result ≡ names (star_of (job_held self.now) v) u }
    {
        if v < 4 {
            return false;
        }
        if self.count <= v - 4 {
            return false;
        }
        let end = self.end_of(v - 4);
        self.place_in(self.start_of(v - 4), end, u) < end
    }

    // Whether the entry at a place names the vertex with the kind.
    fn entry_lists(&self, k: usize, v: usize, want: u8) -> bool
        ensures { result ≡ (eqb (to_at self.now.nbr.now k) v && eqb (get_or self.now.kind.now k 0) want) }
    {
        self.to_at(k) == v && self.kind_at(k) == want
    }

    // Whether some entry from a place to an end names the vertex with the kind.
    fn lists_in(&self, from: usize, end: usize, v: usize, want: u8) -> bool
        ensures { result ≡ lists (cells (end - from) from self.now.nbr.now self.now.kind.now) v want }
    {
        for k in from..end {
            if self.entry_lists(k, v, want) {
                return true;
            }
        }
        false
    }

    // Whether the star of a vertex lists another with the kind; a number that is no room's has no star.
    pub fn lists(&self, v: usize, u: usize, want: u8) -> bool
        ensures { result ≡ lists (star_of (job_held self.now) v) u want }
    {
        if v < 4 {
            return false;
        }
        if self.count <= v - 4 {
            return false;
        }
        self.lists_in(self.start_of(v - 4), self.end_of(v - 4), u, want)
    }

    // Whether the entry at a place of a room's star is answered by the neighbour's star.
    fn entry_answered(&self, u: usize, k: usize) -> bool
        ensures { result ≡ answers (job_held self.now) u (entry_at self.now.nbr.now self.now.kind.now k) }
    {
        let v = self.to_at(k);
        if v < 4 {
            return true;
        }
        self.lists(v, u, crate::kinds::opposite_of(self.kind_at(k)))
    }

    // Whether every entry from a place to an end, of a room's star, is answered.
    fn part_answered(&self, u: usize, from: usize, end: usize) -> bool
        ensures { result ≡ star_answers (job_held self.now) u (cells (end - from) from self.now.nbr.now self.now.kind.now) }
    {
        for k in from..end {
            if !self.entry_answered(u, k) {
                return false;
            }
        }
        true
    }

    // Whether every entry of star i is answered.
    #[tactic(auto, using(crate::proofs::Holding::star_whole))]
    fn star_answered(&self, i: usize) -> bool
        requires { i < length self.now.ends.now }
        ensures { result ≡ star_answers (job_held self.now) (4 + i) (held_star self.now.ends.now self.now.nbr.now self.now.kind.now i) }
    {
        self.part_answered(4 + i, self.start_of(i), self.end_of(i))
    }

    // Test 6: where a room lists another, that one lists it with the opposite kind. Behind the ends that are lent stars are empty.
    pub fn answered(&self) -> bool
        ensures { result ≡ test6 (job_held self.now) }
    {
        for i in 0..self.count.min(self.ends.len()) {
            if !self.star_answered(i) {
                return false;
            }
        }
        true
    }
}
