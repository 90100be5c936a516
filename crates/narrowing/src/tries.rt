// One pair: turned in the lent kinds, and numbered; its upright numbers first, since most turns leave the sheet as wide.
ghost use Rattle.std.specs.Prelude.{◌≡◌, cond, ◌&&◌, length};
ghost use Rattle.floor.specs.Narrow.{pair, nothing, narrower};
ghost use Rattle.stars.specs.Held.{job_in};
ghost use Rattle.stars.specs.Sized.{sizes_lent};
ghost use Rattle.drawing.specs.Rects.{plan_in, plan_lent};
ghost use Rattle.turns.specs.InPlace.{swing_of, turned_in};
ghost use Rattle.narrowing.specs.Slims.{stars_lent, brief, tried};
ghost use Rattle.narrowing.specs.Rounds.{across, does_swing, Finds};

use drawing::{Layout, Plan};
use stars::held::Held;
use stars::least::Least;

// Whether two rooms reach less than two cells' length over one another.
fn brief(plan: &Layout, u: usize, v: usize) -> bool
    ensures { result ≡ brief (plan_lent plan.now) u v }
{
    let one = plan.rectangle(u);
    let other = plan.rectangle(v);
    drawing::rects::overlap(one.x1, one.x2, other.x1, other.x2) < 2
}

// Whether the contact of two rooms turns; it is turned in the lent kinds.
fn turned(spare: &mut [u8], stars: &Held, u: usize, v: usize) -> bool
    ensures { (result ≡ does_swing (swing_of (job_in stars.now.count stars.now.ends.now stars.now.nbr.now spare.old) u v))
        × (spare.new ≡ turned_in stars.now.count stars.now.ends.now stars.now.nbr.now spare.old u v) }
{
    turns::turn_held(spare, stars.ends, stars.nbr, stars.count, u, v).is_ok()
}

// One pair tried: the plan of the stars with it turned, where it is brief, turns, and makes the sheet narrower; else none.
pub fn try_pair(
    spare: &mut [u8],
    stars: &Held,
    sizes: &Least,
    plan: &Layout,
    u: usize,
    v: usize,
) -> Option<Plan>
    requires { length spare.old ≡ length stars.now.kind.now }
    ensures { Finds (cond (brief (plan_in (across plan.now)) u v
        && narrower plan.now.width (tried (stars_lent stars.now) (sizes_lent sizes.now) u v)) (pair u v) nothing)
        result spare.new (stars_lent stars.now) (sizes_lent sizes.now) }
{
    if !brief(plan, u, v) {
        return None;
    }
    spare.copy_from_slice(stars.kind);
    if !turned(spare, stars, u, v) {
        return None;
    }
    let next = Held {
        kind: &*spare,
        ..*stars
    };
    let width = walls::width_of(&next, sizes)?;
    if usize::from(plan.width) <= width {
        return None;
    }
    drawing::plan_stars(&next, sizes).ok()
}
