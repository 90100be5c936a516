// The planner for C: an archive of its nine calls, each of which calls the library crate of the same name and states its clauses again. A crate is a library
// or an archive, never both.
#![tactic(auto)]

ghost use Rattle.std.specs.Prelude.{◌≡◌};
ghost use Rattle.floor.specs.Tracker.{plan_of_job, walls_of_job, cuts_of_job, turned_of_job, narrowed_of_job, touch_of_job, star_of_job, code};
ghost use Rattle.floor.specs.Foreign.{judged};
ghost use Rattle.floor.specs.Verdicts.{verdict_code};
ghost use Rattle.floor.specs.Totals.{season, season_in};

// The plan of a job, written to a lent buffer.
#[unsafe(no_mangle)]
pub extern "C" fn tirunoiwa_plan(job: &[u8], out: &mut [u8]) -> usize
    ensures { (result ≡ code (plan_of_job job.now out.old).reply)
        × (out.new ≡ (plan_of_job job.now out.old).buffer) }
{
    tirunoiwa::tirunoiwa_plan(job, out)
}

// The walls of a job's plan, written to a lent buffer.
#[unsafe(no_mangle)]
pub extern "C" fn tirunoiwa_walls(job: &[u8], out: &mut [u8]) -> usize
    ensures { (result ≡ code (walls_of_job job.now out.old).reply)
        × (out.new ≡ (walls_of_job job.now out.old).buffer) }
{
    tirunoiwa::tirunoiwa_walls(job, out)
}

// The tree of cuts of a job's plan, written to a lent buffer.
#[unsafe(no_mangle)]
pub extern "C" fn tirunoiwa_cuts(job: &[u8], out: &mut [u8]) -> usize
    ensures { (result ≡ code (cuts_of_job job.now out.old).reply)
        × (out.new ≡ (cuts_of_job job.now out.old).buffer) }
{
    tirunoiwa::tirunoiwa_cuts(job, out)
}

// The job with a contact turned, written to a lent buffer.
#[unsafe(no_mangle)]
pub extern "C" fn tirunoiwa_turned(job: &[u8], u: usize, v: usize, out: &mut [u8]) -> usize
    ensures { (result ≡ code (turned_of_job job.now u v out.old).reply)
        × (out.new ≡ (turned_of_job job.now u v out.old).buffer) }
{
    tirunoiwa::tirunoiwa_turned(job, u, v, out)
}

// The job with its floor narrowed, written to a lent buffer; how many turns were made is told.
#[unsafe(no_mangle)]
pub extern "C" fn tirunoiwa_narrow(job: &[u8], out: &mut [u8]) -> usize
    ensures { (result ≡ code (narrowed_of_job job.now out.old).reply)
        × (out.new ≡ (narrowed_of_job job.now out.old).buffer) }
{
    tirunoiwa::tirunoiwa_narrow(job, out)
}

// The star of a room in a job's bytes, written to a lent buffer.
#[unsafe(no_mangle)]
pub extern "C" fn tirunoiwa_star(job: &[u8], room: usize, out: &mut [u8]) -> usize
    ensures { (result ≡ code (star_of_job job.now room out.old).reply)
        × (out.new ≡ (star_of_job job.now room out.old).buffer) }
{
    tirunoiwa::tirunoiwa_star(job, room, out)
}

// How two vertices of a job touch, as one number: the side on which v stands, seen from u, and the length of wall they share.
#[unsafe(no_mangle)]
pub extern "C" fn tirunoiwa_touch(job: &[u8], u: usize, v: usize) -> usize
    ensures { result ≡ code (touch_of_job job.now u v).reply }
{
    tirunoiwa::tirunoiwa_touch(job, u, v)
}

// Whether a plan drawn elsewhere is good for a job, as one number: 1 more than the first value for yes, the first value for no.
#[unsafe(no_mangle)]
pub extern "C" fn tirunoiwa_check<'a>(job: &'a [u8], plan: &'a [u8]) -> usize
    ensures { result ≡ verdict_code (judged job.now plan.now) }
{
    tirunoiwa::tirunoiwa_check(job, plan)
}

// The season's totals of some wrapped jobs, in a lent buffer of numbers; how many they are is told.
#[unsafe(no_mangle)]
pub extern "C" fn tirunoiwa_totals<'a>(jobs: &'a [u8], figures: &mut [usize]) -> usize
    ensures { (result ≡ (season_in (season jobs.now) figures.old).number)
        × (figures.new ≡ (season_in (season jobs.now) figures.old).figures) }
{
    tirunoiwa::tirunoiwa_totals(jobs, figures)
}
