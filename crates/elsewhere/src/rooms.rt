// What is asked of each room, and how many rooms stand in the corner between W and S.
ghost use Rattle.std.specs.Prelude.{◌≡◌, ◌+◌, ◌<◌, length};
ghost use Rattle.floor.specs.Lists.{all, keep};
ghost use Rattle.floor.specs.Jobs.{sized_job, rooms};
ghost use Rattle.floor.specs.Foreign.{in_corner, room_good};
ghost use Rattle.stars.specs.Held.{held_star, job_held};
ghost use Rattle.stars.specs.Sized.{sizes_lent};
ghost use Rattle.elsewhere.specs.Placed.{plan_drawn};

use crate::Drawn;
use stars::held::Held;
use stars::least::Least;

// Whether a room, the i-th from the first, lies between the sides of the frame, has its least size, and has its neighbours on their sides, once round.
#[tactic(auto, using(crate::proofs::Asking::room_is))]
fn room_good(plan: &Drawn, stars: &Held, sizes: &Least, i: usize) -> bool
    requires { (i < stars.now.count) × (i < 65536) }
    ensures { result ≡ room_good (sized_job (job_held stars.now) (sizes_lent sizes.now)) (plan_drawn plan.now) (4 + i) }
{
    let u = 4 + i;
    let from = stars.start_of(i);
    let end = stars.end_of(i);
    plan.lies_between(u)
        && plan.is_large(sizes, i)
        && plan.part_stands(stars, u, from, end)
        && plan.part_round(stars, u, from, end)
}

// Whether every room does.
#[tactic(auto, using(crate::proofs::Asking::rooms_first, crate::proofs::Asking::rooms_false, crate::proofs::Asking::rooms_next, crate::proofs::Asking::rooms_all))]
pub fn rooms_good(plan: &Drawn, stars: &Held, sizes: &Least) -> bool
    requires { stars.now.count < 65536 }
    ensures { result ≡ all (room_good (sized_job (job_held stars.now) (sizes_lent sizes.now)) (plan_drawn plan.now)) (rooms (job_held stars.now)) }
{
    for i in 0..stars.count {
        if !room_good(plan, stars, sizes, i) {
            return false;
        }
    }
    true
}

// Whether a room, the i-th from the first, has W at its left and S below.
#[tactic(auto, using(crate::proofs::Asking::corner_west, crate::proofs::Asking::corner_south))]
fn stands_in_corner(stars: &Held, i: usize) -> bool
    requires { (i < stars.now.count) × (i < 65536) }
    ensures { result ≡ in_corner (held_star stars.now.ends.now stars.now.nbr.now stars.now.kind.now i) }
{
    stars.lists(4 + i, 1, 1) && stars.lists(4 + i, 2, 2)
}

// How many rooms have W at their left and S below.
pub fn in_corner(stars: &Held) -> usize
    requires { stars.now.count < 65536 }
    ensures { result ≡ length (keep in_corner (job_held stars.now)) }
{
    let mut found: usize = 0;
    for i in 0..stars.count {
        found += usize::from(stands_in_corner(stars, i));
    }
    found
}
