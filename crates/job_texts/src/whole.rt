// A whole text, read line by line.
ghost use Rattle.std.specs.Prelude.{◌≡◌, ◌≤◌, length};
ghost use Rattle.floor.specs.JobTexts.{lines, read_lines, told_sizes, read_text};
ghost use Rattle.stars.specs.Sized.{sizes_in};
ghost use Rattle.job_texts.specs.Reads.{no_rooms, finish, gathered_of, taken_of};

use crate::entries::Held;
use crate::{Lack, Rooms, Slip, rows};
use jobs::Job;
use stars::Sizes;
use stars::least::Least;

// No rooms.
#[tactic(auto, using(crate::proofs::AllLines::none_yet))]
fn no_rooms() -> Rooms
    ensures { result ≡ no_rooms }
{
    Rooms {
        held: Held {
            stars: stars::held::none_held(),
            next: 0,
        },
        list: [0; 120],
    }
}

// The lines of a text, read: the rooms, or the first wrong line and what should have stood there.
fn read_lines(text: &[u8]) -> Result<Rooms, Slip>
    requires { length text.now ≤ 16384 }
    ensures { gathered_of result ≡ finish no_rooms (read_lines 0 4 360 (lines text.now)) }
{
    let mut rooms = no_rooms();
    let mut line: usize = 0;
    for bytes in text.split(|b| *b == b'\n') {
        // Counted by hand: behind the last line its number is told too.
        line += 1;
        rooms = match rows::line_row(bytes, rooms) {
            Ok(more) => more,
            Err(lack) => return Err(Slip { line, lack }),
        };
    }
    if rooms.held.stars.count == 0 {
        return Err(Slip {
            line,
            lack: Lack::RoomNumber(4),
        });
    }
    Ok(rooms)
}

// Of how many rooms the sizes are told: of all, or of none where every one is 1 by 1.
#[tactic(auto, using(crate::proofs::AllLines::all_told, crate::proofs::AllLines::none_told))]
fn told_of(count: u8, list: &[u8]) -> u8
    ensures { sizes_in result list.now ≡ told_sizes (sizes_in count list.now) }
{
    let sizes = Least {
        told: usize::from(count),
        list,
    };
    if sizes.some_larger() { count } else { 0 }
}

// A text, read: the rooms and the sizes that are told of them, or the first wrong line and what should have stood there.
pub fn read_text(text: &[u8]) -> Result<Job, Slip>
    requires { length text.now ≤ 16384 }
    ensures { taken_of result ≡ read_text text.now }
{
    let rooms = read_lines(text)?;
    let told = told_of(rooms.held.stars.count, &rooms.list);
    Ok(Job {
        stars: rooms.held.stars,
        sizes: Sizes {
            told,
            list: rooms.list,
        },
    })
}
