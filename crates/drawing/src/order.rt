// Whether the neighbours of one kind stand in order, once round each star.
ghost use Rattle.std.specs.Prelude.{◌≡◌, ◌-◌};
ghost use Rattle.floor.specs.Lists.{all};
ghost use Rattle.stars.specs.Held.{cells, held_star, job_held};
ghost use Rattle.drawing.specs.Rects.{rects_lent};
ghost use Rattle.drawing.specs.Tests.{two_at, ordered, star_ordered};

use crate::Layout;
use stars::held::Held;

// Whether the entries at two places, where they are of one kind, stand in order.
#[tactic(auto, using(crate::proofs::Asking::order_free, crate::proofs::Asking::order_asked))]
fn two_ordered(layout: &Layout, stars: &Held, a: usize, b: usize) -> bool
    ensures { result ≡ ordered (rects_lent layout.now) (two_at stars.now.nbr.now stars.now.kind.now a b) }
{
    let k = stars.kind_at(a);
    if k != stars.kind_at(b) {
        return true;
    }
    let r = layout.rectangle(stars.to_at(a));
    let s = layout.rectangle(stars.to_at(b));
    r.follows(k, s)
}

// Whether each entry from a place to an end stands in order with the one that follows it, behind the last the first.
#[tactic(auto, using(crate::proofs::Asking::round_first, crate::proofs::Asking::round_false, crate::proofs::Asking::round_next, crate::proofs::Asking::round_all))]
fn part_ordered(layout: &Layout, stars: &Held, from: usize, end: usize) -> bool
    ensures { result ≡ star_ordered (rects_lent layout.now) (cells (end - from) from stars.now.nbr.now stars.now.kind.now) }
{
    for a in from..end {
        let b = stars::held::place_after(from, end, a);
        if !two_ordered(layout, stars, a, b) {
            return false;
        }
    }
    true
}

// Whether each entry of a star does.
#[tactic(auto, using(crate::proofs::Asking::star_whole))]
fn star_ordered(layout: &Layout, stars: &Held, i: usize) -> bool
    ensures { result ≡ star_ordered (rects_lent layout.now) (held_star stars.now.ends.now stars.now.nbr.now stars.now.kind.now i) }
{
    part_ordered(layout, stars, stars.start_of(i), stars.end_of(i))
}

// Whether each entry of every star does.
#[tactic(auto, using(crate::proofs::Asking::stars_false, crate::proofs::Asking::stars_next, crate::proofs::Asking::stars_all))]
pub fn all_ordered(layout: &Layout, stars: &Held) -> bool
    ensures { result ≡ all (star_ordered (rects_lent layout.now)) (job_held stars.now) }
{
    for i in 0..stars.count {
        if !star_ordered(layout, stars, i) {
            return false;
        }
    }
    true
}
