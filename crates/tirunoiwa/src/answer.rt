// An answer as one number: a refusal is its own number, everything else stands from 256 on.
ghost use Rattle.std.specs.Prelude.{◌≡◌, ◌<◌};
ghost use Rattle.floor.specs.Tracker.{touch_code, code};
ghost use Rattle.drawing.specs.Rects.{touch_in};
ghost use Rattle.board.specs.Boards.{reply_of};
ghost use Rattle.tirunoiwa.specs.Answers.{Fitting};

use board::Reply;
use drawing::Touch;
use refusals::Refusal;

// A touch as one number: 0 for no wall, else four times the shared length, plus the side.
#[tactic(auto, unfolding(floor::specs::Tracker::touch_code, drawing::specs::Rects::touch_in))]
fn code_of_touch(touch: Touch) -> usize
    ensures { (result ≡ touch_code (touch_in touch)) × (result < 524288) }
{
    let Touch::Wall(side, length) = touch else {
        return 0;
    };
    4 * usize::from(length) + usize::from(side)
}

// The number of an answer that has one: a length that is told is never as great as the memory, and a number of turns less still.
#[tactic(auto, unfolding(floor::specs::Tracker::code, board::specs::Boards::reply_of))]
pub fn code_of(answer: Result<Reply, Refusal>) -> usize
    requires { Fitting (reply_of answer) }
    ensures { result ≡ code (reply_of answer) }
{
    match answer {
        Ok(Reply::Done) => 256,
        Ok(Reply::Spans(_)) => 256,
        Ok(Reply::Touched(touch)) => 256 + code_of_touch(touch),
        Ok(Reply::Says(yes)) => 256 + usize::from(yes),
        Ok(Reply::Wrote(length)) => 256 + length,
        Ok(Reply::Made(turns)) => 256 + turns,
        Err(k) => usize::from(k.number()),
    }
}
