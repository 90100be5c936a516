// The board: load, questions, writing. It goes in by value and comes back from each call.
#![tactic(auto)]

ghost use Rattle.std.specs.Prelude.{◌≡◌, []};
ghost use Rattle.floor.specs.Calls.{load, loads, turns, narrows, rectangle, touches, writes_job, writes_plan, writes_register, slices, writes_cuts};
ghost use Rattle.floor.specs.Jobs.{sized_job};
ghost use Rattle.stars.specs.Held.{job_of};
ghost use Rattle.stars.specs.Sized.{sizes_of};
ghost use Rattle.drawing.specs.Rects.{plan_in};
ghost use Rattle.registers.specs.Sorting.{kept_walls};
ghost use Rattle.registers.specs.Kept.{kept_register};
ghost use Rattle.drawing.specs.Drawn.{numbered_any};
ghost use Rattle.board.specs.Boards.{no_board, Plans, stayed, newly, slim_in, slim_board, outcome, Tells};

use drawing::{Plan, Rect, Touch};
use refusals::Refusal;
use registers::Register;
use stars::{Sizes, Stars};

mod questions; // questions.rt: what the questions and writings ask
mod rounds; // rounds.rt: the rounds of a narrowing

// What is held: a job, turns included, as its stars and its least sizes, its plan, and the register of the plan's walls.
#[derive(Clone, Copy)]
pub struct Board {
    pub stars: Stars,
    pub sizes: Sizes,
    pub plan: Plan,
    pub register: Register,
}

// What is held while a floor is narrowed: the stars and their plan, and the turns made.
#[derive(Clone, Copy)]
pub struct Slim {
    pub stars: Stars,
    pub plan: Plan,
    pub turns: usize,
}

// What a call answers that is not refused.
#[derive(Clone, Copy)]
pub enum Reply {
    Done,
    Spans(Rect),
    Touched(Touch),
    Says(bool),
    Wrote(usize),
    Made(usize),
}

// What comes back from a call: the board and the answer, or the refusal. The board comes back either way, so it stands beside the Result.
#[derive(Clone, Copy)]
pub struct Step {
    pub board: Board,
    pub reply: Result<Reply, Refusal>,
}

// A board that holds nothing.
pub fn empty() -> Board
    ensures { result ≡ no_board }
{
    Board {
        stars: stars::held::none_held(),
        sizes: stars::least::none_told(),
        plan: drawing::no_plan(),
        register: registers::no_register(),
    }
}

// The walls of a plan, counted from its rectangles.
fn counted(plan: &Plan) -> Register
    ensures { result ≡ kept_register (kept_walls (plan_in plan.now)) }
{
    registers::register_of(&plan.rects, plan.rooms, plan.width, plan.height)
}

// A refusal: the very board comes back.
#[tactic(auto, unfolding(crate::specs::Boards::stayed))]
fn stays(board: Board, k: Refusal) -> Step
    ensures { result ≡ stayed board k }
{
    Step {
        board,
        reply: Err(k),
    }
}

// Turned stars numbered afresh with the sizes held, and held with their plan and its walls, counted afresh; all stays as it was where test 7 or 18 fails.
fn hold_numbered(kept: Board, next: Stars) -> Step
    ensures { Tells result [] (newly kept next (numbered_any (sized_job (job_of next) (sizes_of kept.sizes)))) }
{
    match drawing::plan_stars(&next.lent(), &kept.sizes.lent()) {
        Ok(plan) => Step {
            board: Board {
                stars: next,
                sizes: kept.sizes,
                plan,
                register: counted(&plan),
            },
            reply: Ok(Reply::Done),
        },
        Err(k) => stays(kept, k),
    }
}

// What a narrowing left, held with the sizes as they were and the walls of its plan, counted afresh.
fn hold_slim(kept: Board, slim: Slim) -> Board
    ensures { result ≡ slim_board kept (slim_in slim) }
{
    Board {
        stars: slim.stars,
        sizes: kept.sizes,
        plan: slim.plan,
        register: counted(&slim.plan),
    }
}

// A job's bytes planned: tests 1 to 6, 17, 7, 18 and 9; the walls of its plan are counted.
pub fn plan_job(job: &[u8]) -> Result<Board, Refusal>
    ensures { Plans result (load job.now) }
{
    let read = jobs::read_job(job)?;
    let plan = drawing::draw(&read.stars.lent(), &read.sizes.lent())?;
    Ok(Board {
        stars: read.stars,
        sizes: read.sizes,
        plan,
        register: counted(&plan),
    })
}

impl Board {
    // A job loaded: 1 to 6, 17, 7, 18 and 9.
    pub fn load(self, job: &[u8]) -> Step
        ensures { Tells result [] (outcome self (loads job.now)) }
    {
        match plan_job(job) {
            Ok(board) => Step {
                board,
                reply: Ok(Reply::Done),
            },
            Err(why) => stays(self, why),
        }
    }

    // A contact turned, its two rooms named in either order: 10, 11, 12, and 18. On a board that calls reach the turned plan is always drawn: no other test is made of it.
    pub fn turn(self, u: usize, v: usize) -> Step
        ensures { Tells result [] (outcome self (turns u v)) }
    {
        if self.stars.count == 0 {
            return stays(self, Refusal::NothingHeld);
        }
        let stars = self.stars;
        let mut kind = stars.kind;
        match turns::turn_held(
            &mut kind,
            &stars.ends,
            &stars.nbr,
            usize::from(stars.count),
            u,
            v,
        ) {
            Ok(_) => hold_numbered(self, Stars { kind, ..stars }),
            Err(k) => stays(self, k),
        }
    }

    // The floor narrowed: again and again the first contact, one room above the other, is turned that makes the sheet narrower, until none does. 10.
    pub fn narrow(self) -> Step
        ensures { Tells result [] (outcome self narrows) }
    {
        if self.stars.count == 0 {
            return stays(self, Refusal::NothingHeld);
        }
        let slim = rounds::all(
            Slim {
                stars: self.stars,
                plan: self.plan,
                turns: 0,
            },
            self.sizes,
        );
        if slim.turns == 0 {
            return Step {
                board: self,
                reply: Ok(Reply::Made(0)),
            };
        }
        Step {
            board: hold_slim(self, slim),
            reply: Ok(Reply::Made(slim.turns)),
        }
    }

    // The rectangle of a vertex: 10, 13.
    pub fn rectangle(self, v: usize) -> Step
        ensures { Tells result [] (outcome self (rectangle v)) }
    {
        if self.stars.count == 0 {
            return stays(self, Refusal::NothingHeld);
        }
        if !questions::vertex(self.stars.count, v) {
            return stays(self, Refusal::NoVertex);
        }
        Step {
            board: self,
            reply: Ok(Reply::Spans(self.plan.lent().rectangle(v))),
        }
    }

    // On which side v stands, seen from u, and the length of wall they share; one vertex asked twice: no wall. 10, 13.
    pub fn touches(self, u: usize, v: usize) -> Step
        ensures { Tells result [] (outcome self (touches u v)) }
    {
        if self.stars.count == 0 {
            return stays(self, Refusal::NothingHeld);
        }
        if !questions::two_vertices(self.stars.count, u, v) {
            return stays(self, Refusal::NoVertex);
        }
        Step {
            board: self,
            reply: Ok(Reply::Touched(questions::two_touch(&self.plan.lent(), u, v))),
        }
    }

    // The held job, turns included, written to the front of a lent buffer: 10, 14.
    pub fn write_job(self, out: &mut [u8]) -> Step
        ensures { Tells result out.new (outcome self (writes_job out.old)) }
    {
        if self.stars.count == 0 {
            return stays(self, Refusal::NothingHeld);
        }
        let written = jobs::write_job(&self.stars.lent(), &self.sizes.lent(), out);
        let reply = questions::wrote(written);
        Step { board: self, reply }
    }

    // The held plan written to the front of a lent buffer: 10, 14.
    pub fn write_plan(self, out: &mut [u8]) -> Step
        ensures { Tells result out.new (outcome self (writes_plan out.old)) }
    {
        if self.stars.count == 0 {
            return stays(self, Refusal::NothingHeld);
        }
        let written = self.plan.lent().write(out);
        let reply = questions::wrote(written);
        Step { board: self, reply }
    }

    // The register of walls, written to the front of a lent buffer: 10, 14.
    pub fn write_walls(self, out: &mut [u8]) -> Step
        ensures { Tells result out.new (outcome self (writes_register out.old)) }
    {
        if self.stars.count == 0 {
            return stays(self, Refusal::NothingHeld);
        }
        let written = registers::write_register(
            &self.register.rows,
            self.register.uprights,
            self.register.many,
            out,
        );
        let reply = questions::wrote(written);
        Step { board: self, reply }
    }

    // Whether the held floor can be cut straight: 10.
    pub fn slices(self) -> Step
        ensures { Tells result [] (outcome self slices) }
    {
        if self.stars.count == 0 {
            return stays(self, Refusal::NothingHeld);
        }
        let yes = cuts::sliceable(
            &self.plan.rects,
            self.plan.rooms,
            self.plan.width,
            self.plan.height,
        );
        Step {
            board: self,
            reply: Ok(Reply::Says(yes)),
        }
    }

    // The tree of cuts of the held floor, written to the front of a lent buffer: 10, 15, 14.
    pub fn write_cuts(self, out: &mut [u8]) -> Step
        ensures { Tells result out.new (outcome self (writes_cuts out.old)) }
    {
        if self.stars.count == 0 {
            return stays(self, Refusal::NothingHeld);
        }
        let written = cuts::write_cuts(
            &self.plan.rects,
            self.plan.rooms,
            self.plan.width,
            self.plan.height,
            out,
        );
        let reply = questions::wrote(written);
        Step { board: self, reply }
    }
}
