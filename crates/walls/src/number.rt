// The numbers of the sides in one direction: rules run in a good order, then passes until nothing changes or a number is too large.
ghost use Rattle.std.specs.Prelude.{◌≡◌, ◌+◌, ◌≤◌, ◌<◌, length};
ghost use Rattle.stars.specs.Held.{start_of, end_of, entry_at};
ghost use Rattle.floor.specs.Walls.{entry_rules};
ghost use Rattle.floor.specs.Walls.Relax.{Reached};
ghost use Rattle.walls.specs.Steps.{Answers, Capped, Climbs, Ran, rules_of, sides_of};
ghost use Rattle.walls.specs.Jobs.{axis_of};

use crate::Step;
use crate::rules::Rules;
use orders::{Lay, Visit};

impl<'a> Rules<'a> {
    // Passes from numbers that are reached, until nothing changes or a number would pass the top.
    fn settle(&self, f: &mut [u16]) -> bool
        requires { (length f.old ≡ sides_of self.now) × Reached (rules_of self.now) f.old × Capped f.old self.now.top }
        ensures { Answers result (rules_of self.now) f.new (length f.old) }
    {
        // No count of passes is known before they are made, so there is nothing for a `for` to go over.
        loop {
            match self.pass(f) {
                Step::Kept => return true,
                Step::Raised => {}
                Step::Over => return false,
            }
        }
    }

    // The rules of the entry at a place of room 4 + i's star.
    #[tactic(auto, using(crate::proofs::Visiting::visit_named, crate::proofs::Visiting::visit_ran))]
    fn visit_entry(&self, f: &mut [u16], i: usize, k: usize) -> Step
        requires { (length f.old ≡ sides_of self.now) × (i < self.now.stars.count)
            × (start_of self.now.stars.ends.now (length self.now.stars.nbr.now) i ≤ k)
            × (k < end_of self.now.stars.ends.now (length self.now.stars.nbr.now) i) }
        ensures { Ran result (entry_rules (axis_of self.now.way) (4 + i) (entry_at self.now.stars.nbr.now self.now.stars.kind.now k))
            f.old f.new self.now.top }
    {
        let v = self.stars.to_at(k);
        self.entry(f, 4 + i, v, self.stars.kind_at(k))
    }

    // A visit; nothing where there is no such room, or the place lies outside its star.
    fn visit(&self, f: &mut [u16], visit: Visit) -> Step
        requires { length f.old ≡ sides_of self.now }
        ensures { Climbs result (rules_of self.now) f.old f.new self.now.top }
    {
        match visit {
            Visit::Own(star) => {
                let i = usize::from(star);
                if self.stars.count <= i {
                    return Step::Kept;
                }
                self.own(f, i)
            }
            Visit::Entry(star, place) => {
                let i = usize::from(star);
                let k = usize::from(place);
                if self.stars.count <= i {
                    return Step::Kept;
                }
                if k < self.stars.start_of(i) {
                    return Step::Kept;
                }
                if self.stars.end_of(i) <= k {
                    return Step::Kept;
                }
                self.visit_entry(f, i, k)
            }
        }
    }

    // Visits, one after the other. Whatever they name, only the time goes by it.
    #[tactic(auto, using(crate::proofs::Visiting::climbs_more))]
    fn climb(&self, f: &mut [u16], visits: &[Visit]) -> Step
        requires { length f.old ≡ sides_of self.now }
        ensures { Climbs result (rules_of self.now) f.old f.new self.now.top }
    {
        let mut done = Step::Kept;
        for visit in visits {
            let did = self.visit(f, *visit);
            done = done.then(did);
        }
        done
    }

    // The same visits again and again, until nothing is raised or a number would pass the top: as often as that can take.
    #[tactic(auto, using(crate::proofs::Visiting::climbs_more))]
    fn go_round(&self, f: &mut [u16], visits: &[Visit]) -> Step
        requires { length f.old ≡ sides_of self.now }
        ensures { Climbs result (rules_of self.now) f.old f.new self.now.top }
    {
        let mut done = Step::Kept;
        for round in 0..self.top {
            let did = self.climb(f, visits);
            done = done.then(did);
            match did {
                Step::Raised => {}
                Step::Kept | Step::Over => return done,
            }
        }
        done
    }

    // The visits of a good order, and then those of its circle again and again. Nothing is promised of the order but that it stays within its buffer.
    #[tactic(auto, using(crate::proofs::Visiting::climbs_more))]
    fn climb_all(&self, f: &mut [u16], parts: &[[u16; 4]]) -> Step
        requires { length f.old ≡ sides_of self.now }
        ensures { Climbs result (rules_of self.now) f.old f.new self.now.top }
    {
        let lay = Lay {
            far: self.way.far(),
            near: self.way.near(),
            cross: self.way.cross(),
            stars: &self.stars,
            parts,
        };
        let mut visits = [Visit::Own(0); 128];
        let span = orders::order_of(&lay, &mut visits);
        let once = self.climb(f, &visits[..span.many]);
        let round = self.go_round(f, &visits[span.again..span.many]);
        once.then(round)
    }

    // The numbers of the text, left in f; or false where the walls run in a circle.
    pub fn number(&self, f: &mut [u16], parts: &[[u16; 4]]) -> bool
        requires { length f.old ≡ sides_of self.now }
        ensures { Answers result (rules_of self.now) f.new (length f.old) }
    {
        f.fill(1);
        match self.climb_all(f, parts) {
            Step::Over => false,
            Step::Kept | Step::Raised => self.settle(f),
        }
    }
}
