// Once round a star: each neighbour on its labelled side, and from each to the next without a gap.
ghost use Rattle.std.specs.Prelude.{◌≡◌, ◌-◌};
ghost use Rattle.floor.specs.Lists.{all};
ghost use Rattle.floor.specs.Jobs.{links};
ghost use Rattle.floor.specs.Foreign.{step_on};
ghost use Rattle.stars.specs.Held.{entry_at, cells};
ghost use Rattle.drawing.specs.Tests.{two_at};
ghost use Rattle.elsewhere.specs.Placed.{plan_drawn, stands_at};

use crate::Drawn;
use stars::held::Held;

impl Drawn<'_> {
    // Whether the neighbour at a place stands on its labelled side of a room.
    #[tactic(auto, using(crate::proofs::Asking::entry_is))]
    fn entry_stands(&self, stars: &Held, u: usize, k: usize) -> bool
        ensures { result ≡ stands_at (plan_drawn self.now) u (entry_at stars.now.nbr.now stars.now.kind.now k) }
    {
        let r = self.rect_of(u);
        let s = self.rect_of(stars.to_at(k));
        crate::sides::stands_on(stars.kind_at(k), r, s)
    }

    // Whether each neighbour from a place to an end does.
    #[tactic(auto, using(crate::proofs::Asking::stand_false, crate::proofs::Asking::stand_next, crate::proofs::Asking::stand_all))]
    pub fn part_stands(&self, stars: &Held, u: usize, from: usize, end: usize) -> bool
        ensures { result ≡ all (stands_at (plan_drawn self.now) u) (cells (end - from) from stars.now.nbr.now stars.now.kind.now) }
    {
        for k in from..end {
            if !self.entry_stands(stars, u, k) {
                return false;
            }
        }
        true
    }

    // Whether the neighbours at two places lie end to end, where they are on one side, or else meet round the corner.
    fn step_on(&self, stars: &Held, u: usize, a: usize, b: usize) -> bool
        ensures { result ≡ step_on (plan_drawn self.now) u (two_at stars.now.nbr.now stars.now.kind.now a b) }
    {
        let k = stars.kind_at(a);
        let r = self.rect_of(stars.to_at(a));
        let s = self.rect_of(stars.to_at(b));
        if k == stars.kind_at(b) {
            return crate::sides::abut_on(k, r, s);
        }
        crate::sides::corner_on(k, self.rect_of(u), r, s)
    }

    // Whether each neighbour from a place to an end does so with the one that follows it, behind the last the first.
    #[tactic(auto, using(crate::proofs::Asking::round_first, crate::proofs::Asking::round_false, crate::proofs::Asking::round_next, crate::proofs::Asking::round_all))]
    pub fn part_round(&self, stars: &Held, u: usize, from: usize, end: usize) -> bool
        ensures { result ≡ all (step_on (plan_drawn self.now) u) (links (cells (end - from) from stars.now.nbr.now stars.now.kind.now)) }
    {
        for a in from..end {
            let b = stars::held::place_after(from, end, a);
            if !self.step_on(stars, u, a, b) {
                return false;
            }
        }
        true
    }
}
