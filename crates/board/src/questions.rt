// What the questions ask of a plan, and what a writing answers.
ghost use Rattle.std.specs.Prelude.{◌≡◌, ◌&&◌, ◌+◌, leb};
ghost use Rattle.floor.specs.Calls.{touching};
ghost use Rattle.fields.specs.Writes.{replied};
ghost use Rattle.drawing.specs.Rects.{plan_lent, touch_in};
ghost use Rattle.board.specs.Boards.{reply_of};

use crate::Reply;
use drawing::{Layout, Touch};
use refusals::Refusal;

// Whether a number is a vertex, of so many rooms.
pub fn vertex(rooms: u8, v: usize) -> bool
    ensures { result ≡ leb v (rooms + 3) }
{
    v <= usize::from(rooms) + 3
}

// Whether two numbers are vertices.
pub fn two_vertices(rooms: u8, u: usize, v: usize) -> bool
    ensures { result ≡ (leb u (rooms + 3) && leb v (rooms + 3)) }
{
    vertex(rooms, u) && vertex(rooms, v)
}

// On which side v stands, seen from u, and the length of wall they share; one vertex asked twice: no wall.
pub fn two_touch(plan: &Layout, u: usize, v: usize) -> Touch
    ensures { touch_in result ≡ touching (plan_lent plan.now) u v }
{
    if u == v {
        return Touch::Clear;
    }
    plan.rectangle(u).touch(plan.rectangle(v))
}

// What a writing answers, as a call's answer.
pub fn wrote(written: Result<usize, Refusal>) -> Result<Reply, Refusal>
    ensures { reply_of result ≡ replied written }
{
    match written {
        Ok(length) => Ok(Reply::Wrote(length)),
        Err(why) => Err(why),
    }
}
