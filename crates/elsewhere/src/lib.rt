// Plans drawn elsewhere: whether a plan's bytes are those of a plan that is good for a job, in time by the job's rooms and pairs.
#![tactic(auto)]

ghost use Rattle.std.specs.Prelude.{◌≡◌, ◌<◌};
ghost use Rattle.floor.specs.Jobs.{sized_job};
ghost use Rattle.floor.specs.Foreign.{read_plan, good_for, judge_plan, judged};
ghost use Rattle.stars.specs.Held.{job_held};
ghost use Rattle.stars.specs.Sized.{sizes_lent};
ghost use Rattle.elsewhere.specs.Placed.{plan_drawn};
ghost use Rattle.elsewhere.specs.Answers.{verdict};

use refusals::Refusal;
use stars::held::Held;
use stars::least::Least;

mod shape; // shape.rt: whether the bytes are shaped as a plan (16)
mod rects; // rects.rt: the rectangles, read straight from the bytes
mod sides; // sides.rt: two rectangles at a side of a room, and two round its corner
mod sheet; // sheet.rt: every rectangle inside the sheet, the frame, and a room between its sides
mod round; // round.rt: once round a star
mod rooms; // rooms.rt: what is asked of each room, and the rooms in the corner between W and S
pub mod text; // text.rt: what is printed of an answer

// A plan's bytes, asked as those of a plan of so many rooms.
#[derive(Clone, Copy)]
pub(crate) struct Drawn<'a> {
    pub bytes: &'a [u8],
    pub rooms: u8,
}

// Whether the plan that stands in the bytes is good for held stars with their least sizes.
#[tactic(auto, unfolding(floor::specs::Foreign::good_for, floor::specs::Foreign::one_in_corner, crate::specs::Placed::plan_at))]
fn good_for(plan: &Drawn, stars: &Held, sizes: &Least) -> bool
    requires { stars.now.count < 65536 }
    ensures { result ≡ good_for (sized_job (job_held stars.now) (sizes_lent sizes.now)) (plan_drawn plan.now) }
{
    plan.all_inside()
        && plan.frame_lies()
        && rooms::rooms_good(plan, stars, sizes)
        && rooms::in_corner(stars) == 1
}

// A plan's bytes asked for held stars with their least sizes: 16, then yes or no.
#[tactic(auto, using(crate::proofs::Judging::judge_sixteen, crate::proofs::Judging::judge_says))]
fn judge_plan(plan: &Drawn, stars: &Held, sizes: &Least) -> Result<bool, Refusal>
    requires { stars.now.count < 65536 }
    ensures { verdict result ≡ judge_plan (sized_job (job_held stars.now) (sizes_lent sizes.now))
        (read_plan plan.now.rooms plan.now.bytes.now) }
{
    if !plan.shaped() {
        return Err(Refusal::NotAPlan);
    }
    Ok(good_for(plan, stars, sizes))
}

// The answer to a job's bytes and a plan's bytes: the job's 1 to 6 in order, 17, then 16, then yes or no.
#[tactic(auto, using(crate::proofs::Judging::judge_refused, crate::proofs::Judging::judge_passed))]
pub fn judge(job: &[u8], plan: &[u8]) -> Result<bool, Refusal>
    ensures { verdict result ≡ judged job.now plan.now }
{
    let read = jobs::read_job(job)?;
    let stars = Held {
        count: usize::from(read.stars.count),
        ends: &read.stars.ends,
        nbr: &read.stars.nbr,
        kind: &read.stars.kind,
    };
    let sizes = Least {
        told: usize::from(read.sizes.told),
        list: &read.sizes.list,
    };
    let drawn = Drawn {
        bytes: plan,
        rooms: read.stars.count,
    };
    judge_plan(&drawn, &stars, &sizes)
}
