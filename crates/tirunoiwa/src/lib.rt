// The planner for other programs: plain functions over a job's bytes. No board is kept between two calls.
#![tactic(auto)]

ghost use Rattle.std.specs.Prelude.{◌≡◌, []};
ghost use Rattle.floor.specs.Calls.{turns, narrows};
ghost use Rattle.floor.specs.Tracker.{plan_of_job, walls_of_job, cuts_of_job, turned_of_job, narrowed_of_job, touch_of_job, star_of_job, code};
ghost use Rattle.floor.specs.Foreign.{judged};
ghost use Rattle.floor.specs.Verdicts.{verdict_code};
ghost use Rattle.floor.specs.Totals.{season, season_in};
ghost use Rattle.board.specs.Boards.{outcome, Tells};
ghost use Rattle.tirunoiwa.specs.Answers.{Gives};

use board::{Board, Reply, Step};
use refusals::Refusal;

mod answer; // answer.rt: an answer as one number

// An answer from here on is no refusal.
const FIRST_VALUE: usize = 256;

// A contact turned on a board that is lent, by itself: merged into its caller it would take its stack beside a load's (tests/stack).
#[inline(never)]
fn turn(board: &Board, u: usize, v: usize) -> Step
    ensures { Tells result [] (outcome board.now (turns u v)) }
{
    board.turn(u, v)
}

// A floor narrowed, in the same way.
#[inline(never)]
fn slim(board: &Board) -> Step
    ensures { Tells result [] (outcome board.now narrows) }
{
    board.narrow()
}

// The plan of a job, written to a lent buffer, or why it is refused.
fn plan(job: &[u8], out: &mut [u8]) -> Result<Reply, Refusal>
    ensures { Gives result out.new (plan_of_job job.now out.old) }
{
    let board = board::plan_job(job)?;
    board.write_plan(out).reply
}

// The walls of a job's plan, written to a lent buffer.
fn walls(job: &[u8], out: &mut [u8]) -> Result<Reply, Refusal>
    ensures { Gives result out.new (walls_of_job job.now out.old) }
{
    let planned = board::plan_job(job)?;
    planned.write_walls(out).reply
}

// The tree of cuts of a job's plan, written to a lent buffer.
fn cuts(job: &[u8], out: &mut [u8]) -> Result<Reply, Refusal>
    ensures { Gives result out.new (cuts_of_job job.now out.old) }
{
    let board = board::plan_job(job)?;
    board.write_cuts(out).reply
}

// The job with a contact turned, written to a lent buffer.
fn turned(job: &[u8], u: usize, v: usize, out: &mut [u8]) -> Result<Reply, Refusal>
    ensures { Gives result out.new (turned_of_job job.now u v out.old) }
{
    let held = board::plan_job(job)?;
    let turned = turn(&held, u, v);
    turned.reply?;
    turned.board.write_job(out).reply
}

// The job with its floor narrowed, written to a lent buffer; how many turns were made is told.
fn narrow(job: &[u8], out: &mut [u8]) -> Result<Reply, Refusal>
    ensures { Gives result out.new (narrowed_of_job job.now out.old) }
{
    let held = board::plan_job(job)?;
    let narrowed = slim(&held);
    narrowed.board.write_job(out).reply?;
    narrowed.reply
}

// The star of a room in a job's bytes, written to a lent buffer.
fn star(job: &[u8], room: usize, out: &mut [u8]) -> Result<Reply, Refusal>
    ensures { Gives result out.new (star_of_job job.now room out.old) }
{
    let star = jobs::raw_star(job, room);
    if out.len() < star.len() {
        return Err(Refusal::TooShort);
    }
    Ok(Reply::Wrote(letters::word::put_word(out, 0, star)))
}

// How two vertices of a job touch: the side on which v stands, seen from u, and the length of wall they share.
fn touch(job: &[u8], u: usize, v: usize) -> Result<Reply, Refusal>
    ensures { Gives result [] (touch_of_job job.now u v) }
{
    let board = board::plan_job(job)?;
    board.touches(u, v).reply
}

// The plan of a job, written to a lent buffer.
#[tactic(auto, using(crate::proofs::Calling::given_fits, crate::proofs::Calling::given_told))]
#[unsafe(no_mangle)]
pub extern "C" fn tirunoiwa_plan(job: &[u8], out: &mut [u8]) -> usize
    ensures { (result ≡ code (plan_of_job job.now out.old).reply)
        × (out.new ≡ (plan_of_job job.now out.old).buffer) }
{
    answer::code_of(plan(job, out))
}

// The walls of a job's plan, written to a lent buffer.
#[tactic(auto, using(crate::proofs::Calling::given_fits, crate::proofs::Calling::given_told))]
#[unsafe(no_mangle)]
pub extern "C" fn tirunoiwa_walls(job: &[u8], out: &mut [u8]) -> usize
    ensures { (result ≡ code (walls_of_job job.now out.old).reply)
        × (out.new ≡ (walls_of_job job.now out.old).buffer) }
{
    answer::code_of(walls(job, out))
}

// The tree of cuts of a job's plan, written to a lent buffer.
#[tactic(auto, using(crate::proofs::Calling::given_fits, crate::proofs::Calling::given_told))]
#[unsafe(no_mangle)]
pub extern "C" fn tirunoiwa_cuts(job: &[u8], out: &mut [u8]) -> usize
    ensures { (result ≡ code (cuts_of_job job.now out.old).reply)
        × (out.new ≡ (cuts_of_job job.now out.old).buffer) }
{
    answer::code_of(cuts(job, out))
}

// The job with a contact turned, written to a lent buffer.
#[tactic(auto, using(crate::proofs::Calling::given_fits, crate::proofs::Calling::given_told))]
#[unsafe(no_mangle)]
pub extern "C" fn tirunoiwa_turned(job: &[u8], u: usize, v: usize, out: &mut [u8]) -> usize
    ensures { (result ≡ code (turned_of_job job.now u v out.old).reply)
        × (out.new ≡ (turned_of_job job.now u v out.old).buffer) }
{
    answer::code_of(turned(job, u, v, out))
}

// The job with its floor narrowed, written to a lent buffer; how many turns were made is told.
#[tactic(auto, using(crate::proofs::Calling::given_fits, crate::proofs::Calling::given_told))]
#[unsafe(no_mangle)]
pub extern "C" fn tirunoiwa_narrow(job: &[u8], out: &mut [u8]) -> usize
    ensures { (result ≡ code (narrowed_of_job job.now out.old).reply)
        × (out.new ≡ (narrowed_of_job job.now out.old).buffer) }
{
    answer::code_of(narrow(job, out))
}

// The star of a room in a job's bytes, written to a lent buffer.
#[tactic(auto, using(crate::proofs::Calling::given_fits, crate::proofs::Calling::given_told))]
#[unsafe(no_mangle)]
pub extern "C" fn tirunoiwa_star(job: &[u8], room: usize, out: &mut [u8]) -> usize
    ensures { (result ≡ code (star_of_job job.now room out.old).reply)
        × (out.new ≡ (star_of_job job.now room out.old).buffer) }
{
    answer::code_of(star(job, room, out))
}

// How two vertices of a job touch, as one number: the side on which v stands, seen from u, and the length of wall they share.
#[tactic(auto, using(crate::proofs::Calling::given_fits, crate::proofs::Calling::given_told))]
#[unsafe(no_mangle)]
pub extern "C" fn tirunoiwa_touch(job: &[u8], u: usize, v: usize) -> usize
    ensures { result ≡ code (touch_of_job job.now u v).reply }
{
    answer::code_of(touch(job, u, v))
}

// Whether a plan drawn elsewhere is good for a job, as one number: 1 more than the first value for yes, the first value for no.
#[tactic(auto, unfolding(floor::specs::Verdicts::verdict_code, elsewhere::specs::Answers::verdict))]
#[unsafe(no_mangle)]
pub extern "C" fn tirunoiwa_check<'a>(job: &'a [u8], plan: &'a [u8]) -> usize
    ensures { result ≡ verdict_code (judged job.now plan.now) }
{
    match elsewhere::judge(job, plan) {
        Ok(good) => FIRST_VALUE + usize::from(good),
        Err(k) => usize::from(k.number()),
    }
}

// The season's totals of some wrapped jobs, in a lent buffer of numbers; how many they are is told.
#[unsafe(no_mangle)]
pub extern "C" fn tirunoiwa_totals<'a>(jobs: &'a [u8], figures: &mut [usize]) -> usize
    ensures { (result ≡ (season_in (season jobs.now) figures.old).number)
        × (figures.new ≡ (season_in (season jobs.now) figures.old).figures) }
{
    season::totals(jobs, figures)
}
