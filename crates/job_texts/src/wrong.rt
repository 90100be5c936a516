// A wrong line, told in words.
ghost use Rattle.floor.specs.JobTexts.{wrong_line, expected_text, job_answer};
ghost use Rattle.letters.specs.Puts.{Puts};
ghost use Rattle.job_texts.specs.Reads.{lack_of};

use crate::{Lack, Slip};
use letters::{number, word};

// What should have stood on a wrong line.
// Not a Display: what is promised is the bytes that a lent page has in the end, also where it is too short for them.
fn put_lack(out: &mut [u8], at: usize, lack: Lack) -> usize
    ensures { Puts out.old at (expected_text (lack_of lack)) out.new result }
{
    match lack {
        Lack::RoomNumber(room) => {
            let next = word::put_word(out, at, b"the number of room ");
            number::put_decimal(out, next, usize::from(room))
        }
        Lack::Colon => word::put_word(out, at, b"a colon behind the room's number"),
        Lack::Side => word::put_word(out, at, b"above, left, below, right or at least"),
        Lack::Neighbour => word::put_word(out, at, b"N, W, S, E or a number up to 255"),
        Lack::Comma => word::put_word(out, at, b"a comma, or the end of the line"),
        Lack::LeastSize => word::put_word(
            out,
            at,
            b"a least size, as at least 3 by 2, and the end of the line",
        ),
        Lack::NoRoom => word::put_word(out, at, b"no more than 60 rooms"),
        Lack::NoContact => word::put_word(out, at, b"no more than 360 contacts"),
    }
}

// The number of a wrong line and what should have stood there, at the front.
pub fn put_slip(out: &mut [u8], slip: Slip) -> usize
    ensures { Puts out.old 0 (job_answer (wrong_line slip.line (lack_of slip.lack))) out.new result }
{
    let first = word::put_word(out, 0, b"line ");
    let second = number::put_decimal(out, first, slip.line);
    let third = word::put_word(out, second, b": expected ");
    let end = put_lack(out, third, slip.lack);
    word::put_byte(out, end, b'\n')
}
