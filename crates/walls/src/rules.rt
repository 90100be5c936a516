// The rules of an entry, a star, a room and a job, run over the numbers of the sides: two to a vertex, the low one first.
ghost use Rattle.std.specs.Prelude.{◌≡◌, true, [], ◌∷◌, ◌+◌, ◌-◌, ◌*◌, ◌≤◌, ◌<◌, length};
ghost use Rattle.floor.specs.Walls.{before, low, high, extra, entry_rules, star_rules};
ghost use Rattle.stars.specs.Held.{cells, held_star, job_held};
ghost use Rattle.stars.specs.Pairs.{pair};
ghost use Rattle.stars.specs.Sized.{sizes_lent};
ghost use Rattle.walls.specs.Jobs.{axis_of, named, star_named, top_of_rooms};

use crate::{Direction, Step};
use stars::held::Held;
use stars::least::Least;

// The rules of one direction: the stars and the least sizes that say them, of a job that can be numbered, and the largest number that a wall can have.
#[derive(Clone, Copy)]
pub struct Rules<'a> {
    pub way: Direction,
    pub stars: Held<'a>,
    pub sizes: Least<'a>,
    pub top: u16,
    ghost few: { stars.count ≤ 60 },
    ghost in_job: { named (2 * (stars.count + 4)) (job_held stars) ≡ true },
    ghost is_top: { top ≡ top_of_rooms (axis_of way) stars.count (sizes_lent sizes) },
}

impl Direction {
    // The kind that joins a room's high wall to a neighbour's low one.
    pub fn far(self) -> u8
        ensures { result ≡ (axis_of self).far }
    {
        match self {
            Direction::Upright => 3,
            Direction::Level => 0,
        }
    }

    // The kind that joins a room's low wall to a neighbour's high one.
    pub fn near(self) -> u8
        ensures { result ≡ (axis_of self).near }
    {
        match self {
            Direction::Upright => 1,
            Direction::Level => 2,
        }
    }

    // The kind that puts the low wall of each before the high wall of the other.
    pub fn cross(self) -> u8
        ensures { result ≡ (axis_of self).cross }
    {
        match self {
            Direction::Upright => 0,
            Direction::Level => 3,
        }
    }
}

impl<'a> Rules<'a> {
    ghost use Rattle.walls.specs.Steps.{Ran, rules_of, sides_of};

    // The two rules of a contact across.
    #[tactic(auto, using(crate::proofs::Telling::ran_crossed))]
    fn crossed(&self, f: &mut [u16], u: usize, v: usize) -> Step
        requires { (high u < length f.old) × (high v < length f.old) }
        ensures { Ran result (before (low u) (high v) 0 ∷ before (low v) (high u) 0 ∷ []) f.old f.new self.now.top }
    {
        let one = crate::steps::apply(f, 2 * u, 2 * v + 1, 1, self.top);
        let other = crate::steps::apply(f, 2 * v, 2 * u + 1, 1, self.top);
        one.then(other)
    }

    // The rules of one entry of room u.
    pub fn entry(&self, f: &mut [u16], u: usize, v: usize, kind: u8) -> Step
        requires { (high u < length f.old) × (high v < length f.old) }
        ensures { Ran result (entry_rules (axis_of self.now.way) u (pair v kind)) f.old f.new self.now.top }
    {
        if kind == self.way.far() {
            return crate::steps::apply(f, 2 * u + 1, 2 * v, 0, self.top);
        }
        if kind == self.way.near() {
            return crate::steps::apply(f, 2 * v + 1, 2 * u, 0, self.top);
        }
        if kind == self.way.cross() {
            if 4 <= v {
                return self.crossed(f, u, v);
            }
        }
        Step::Kept
    }

    // The rules of room u's entries from a place to an end.
    fn star(&self, f: &mut [u16], u: usize, from: usize, end: usize) -> Step
        requires { (high u < length f.old)
            × (star_named (length f.old) (cells (end - from) from self.now.stars.nbr.now self.now.stars.kind.now) ≡ true) }
        ensures { Ran result (star_rules (axis_of self.now.way) u (cells (end - from) from self.now.stars.nbr.now self.now.stars.kind.now))
            f.old f.new self.now.top }
    {
        let mut done = Step::Kept;
        for k in from..end {
            let v = self.stars.to_at(k);
            let did = self.entry(f, u, v, self.stars.kind_at(k));
            done = done.then(did);
        }
        done
    }

    // Room 4 + i's own rule: its low wall before its high wall, by its least size.
    #[tactic(auto, using(crate::proofs::Telling::ran_own))]
    pub fn own(&self, f: &mut [u16], i: usize) -> Step
        requires { high (4 + i) < length f.old }
        ensures { Ran result (before (low (4 + i)) (high (4 + i)) (extra (axis_of self.now.way) (sizes_lent self.now.sizes) (4 + i)) ∷ [])
            f.old f.new self.now.top }
    {
        let u = 4 + i;
        let gap = 1 + crate::least::extra_at(&self.sizes, i, self.way);
        crate::steps::apply(f, 2 * u, 2 * u + 1, gap, self.top)
    }

    // The rules of room 4 + i: its own, and its star.
    #[tactic(auto, using(crate::proofs::Telling::room_named, crate::proofs::Telling::ran_room))]
    fn room(&self, f: &mut [u16], i: usize) -> Step
        requires { (high (4 + i) < length f.old)
            × (star_named (length f.old) (held_star self.now.stars.ends.now self.now.stars.nbr.now self.now.stars.kind.now i) ≡ true) }
        ensures { Ran result (before (low (4 + i)) (high (4 + i)) (extra (axis_of self.now.way) (sizes_lent self.now.sizes) (4 + i))
            ∷ star_rules (axis_of self.now.way) (4 + i) (held_star self.now.stars.ends.now self.now.stars.nbr.now self.now.stars.kind.now i))
            f.old f.new self.now.top }
    {
        let first = self.own(f, i);
        let from = self.stars.start_of(i);
        let end = self.stars.end_of(i);
        let rest = self.star(f, 4 + i, from, end);
        first.then(rest)
    }

    // One pass: the rules of every room.
    pub fn pass(&self, f: &mut [u16]) -> Step
        requires { length f.old ≡ sides_of self.now }
        ensures { Ran result (rules_of self.now) f.old f.new self.now.top }
    {
        let mut done = Step::Kept;
        for i in 0..self.stars.count {
            let did = self.room(f, i);
            done = done.then(did);
        }
        done
    }
}
