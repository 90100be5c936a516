// Tests 3 to 6 and 17 of a job whose bytes have the right shape, each over the entire job before the next, and test 3 alone.
ghost use Rattle.floor.specs.Jobs.{reads, first_three, first_six, sizes_pass};
ghost use Rattle.jobs.specs.Shapes.{Fits, job_shaped};
ghost use Rattle.jobs.specs.Reads.{Tells};

use crate::Job;
use crate::outline::Shape;
use refusals::Refusal;
use stars::held::Held;
use stars::least::Least;

// Test 3: as many pairs as a job may have.
const MOST_PAIRS: usize = 360;

// The stars and the sizes of a job of the right shape, held where they pass test 3.
pub fn kept(job: &[u8], shape: Shape) -> Result<Job, Refusal>
    requires { Fits shape job.now }
    ensures { Tells result (first_three (reads (job_shaped shape job.now))) }
{
    if MOST_PAIRS < shape.pairs {
        return Err(Refusal::TooManyPairs);
    }
    let stars = crate::fill::hold(job, shape.first, shape.rooms);
    let sizes = crate::fill::hold_sizes(job, shape.end);
    Ok(Job { stars, sizes })
}

// The stars and the sizes of a job of the right shape, put through tests 3 to 6 and 17.
pub fn tested(job: &[u8], shape: Shape) -> Result<Job, Refusal>
    requires { Fits shape job.now }
    ensures { Tells result (sizes_pass (first_six (reads (job_shaped shape job.now)))) }
{
    if MOST_PAIRS < shape.pairs {
        return Err(Refusal::TooManyPairs);
    }
    if !crate::walk::entries_pass(job, shape.first, shape.rooms) {
        return Err(Refusal::WrongEntry);
    }
    if !crate::walk::stars_pass(job, shape.first, shape.rooms) {
        return Err(Refusal::WrongStar);
    }
    let stars = crate::fill::hold(job, shape.first, shape.rooms);
    let held = Held {
        count: usize::from(stars.count),
        ends: &stars.ends,
        nbr: &stars.nbr,
        kind: &stars.kind,
    };
    if !held.answered() {
        return Err(Refusal::Unanswered);
    }
    let sizes = crate::fill::hold_sizes(job, shape.end);
    let least = Least {
        told: usize::from(sizes.told),
        list: &sizes.list,
    };
    if !least.sizes_pass() {
        return Err(Refusal::WrongSizes);
    }
    Ok(Job { stars, sizes })
}
