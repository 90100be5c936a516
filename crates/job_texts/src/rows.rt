// The line of a room, read and held behind the rooms that are held already.
ghost use Rattle.std.specs.Prelude.{◌≡◌, ◌+◌, ◌-◌, ◌<◌, IfOk};
ghost use Rattle.floor.specs.JobTexts.{skip, uncommented, behind_number, room_line};
ghost use Rattle.job_texts.specs.Reads.{put_size, put_contacts, put_line, on_line, told_size, row_of, lined_of};

use crate::entries::Held;
use crate::{Lack, Measure, Rooms, Row, contacts, values, words};

// A list of sizes with that of a room, the i-th from the first, put.
#[tactic(auto, unfolding(crate::specs::Reads::put_size))]
fn with_size(mut list: [u8; 120], i: usize, size: Measure) -> [u8; 120]
    requires { i < 60 }
    ensures { result ≡ put_size list i (told_size size) }
{
    list[2 * i] = size.wide;
    list[2 * i + 1] = size.tall;
    list
}

// What stands behind a room's number: a colon, and the contacts.
fn behind_number(text: &[u8], held: Held) -> Result<Row, Lack>
    ensures { (row_of result ≡ put_contacts held (behind_number (360 - held.next) text.now)) × IfOk result (λ r. r.held.stars.count ≡ held.stars.count) }
{
    let Some((mark, behind)) = text.split_first() else {
        return Err(Lack::Colon);
    };
    if *mark != b':' {
        return Err(Lack::Colon);
    }
    let first = words::skip(behind);
    if first.is_empty() {
        return Ok(Row {
            held,
            size: Measure::ONE,
        });
    }
    contacts::hold_contacts(first, held)
}

// The rooms with that of a line, no blanks in front, which is the next room's.
fn room_row(line: &[u8], rooms: Rooms) -> Result<Rooms, Lack>
    ensures { lined_of result ≡ put_line rooms (room_line (360 - rooms.held.next) (4 + rooms.held.stars.count) line.now) }
{
    let n = rooms.held.stars.count;
    if 60 <= n {
        return Err(Lack::NoRoom);
    }
    if values::number_of(words::word(line)) != Some(4 + n) {
        return Err(Lack::RoomNumber(4 + n));
    }
    let row = behind_number(words::next(line), rooms.held)?;
    Ok(Rooms {
        held: row.held.closed(),
        list: with_size(rooms.list, usize::from(n), row.size),
    })
}

// The rooms with that of a line as it stands in a text: a room's, or one with nothing on it, which does not count.
#[tactic(auto, using(crate::proofs::RoomLines::line_nothing, crate::proofs::RoomLines::line_room))]
pub fn line_row(line: &[u8], rooms: Rooms) -> Result<Rooms, Lack>
    ensures { lined_of result ≡ on_line rooms (skip (uncommented line.now)) }
{
    let bare = words::bare(line);
    if bare.is_empty() {
        return Ok(rooms);
    }
    room_row(bare, rooms)
}
