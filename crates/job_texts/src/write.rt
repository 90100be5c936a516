// A held job, written as text into a lent buffer, as far as it reaches: contacts, a least size, a room's line, and all the lines.
ghost use Rattle.std.specs.Prelude.{◌≡◌, true, List, ℕ, ◌+◌, ◌-◌, ◌≤◌, ◌<◌, length};
ghost use Rattle.std.proofs.lemmas.List.Edits.{sets};
ghost use Rattle.floor.specs.Jobs.{sized_job, size_of, test2, test3, reads};
ghost use Rattle.floor.specs.Jobs.Written.{Counts};
ghost use Rattle.floor.specs.JobTexts.{vertex_word, contact_text, contacts_text, size_text, size_behind, room_text, job_text, texted, text_answer};
ghost use Rattle.stars.specs.Held.{entry_at, cells, held_star, job_held};
ghost use Rattle.stars.specs.Sized.{sizes_lent};
ghost use Rattle.letters.specs.Puts.{Puts};
ghost use Rattle.job_texts.specs.Reads.{told_size};
ghost use Rattle.job_texts.specs.Writes.{side_text, more_text};

use crate::Measure;
use refusals::Refusal;
use stars::held::Held;
use stars::least::Least;

const FRAME: [u8; 4] = [b'N', b'W', b'S', b'E'];

// A kind by its side, a blank before and behind it; of a number that is no kind the blanks alone.
// Not an enum: held stars have any byte as a kind, and refusal 4 is of those over 3.
#[tactic(auto, using(crate::proofs::Put::side_put, crate::proofs::Put::side_none), unfolding(crate::specs::Writes::side_text, floor::specs::JobTexts::side_word, floor::specs::JobTexts::side_words, floor::specs::Quoted::plain))]
fn put_side(out: &mut [u8], at: usize, kind: u8) -> usize
    ensures { Puts out.old at (side_text kind) out.new result }
{
    match kind {
        0 => letters::word::put_word(out, at, b" above "),
        1 => letters::word::put_word(out, at, b" left "),
        2 => letters::word::put_word(out, at, b" below "),
        3 => letters::word::put_word(out, at, b" right "),
        _ => letters::word::put_word(out, at, b"  "),
    }
}

// A vertex: a frame side by its letter, a room by its number.
fn put_vertex(out: &mut [u8], at: usize, v: usize) -> usize
    ensures { Puts out.old at (vertex_word v) out.new result }
{
    if v < 4 {
        return letters::word::put_byte(out, at, FRAME[v]);
    }
    letters::number::put_decimal(out, at, v)
}

// The contact at a place.
fn put_contact(out: &mut [u8], at: usize, stars: &Held, k: usize) -> usize
    ensures { Puts out.old at (contact_text (entry_at stars.now.nbr.now stars.now.kind.now k)) out.new result }
{
    let next = put_side(out, at, stars.kind_at(k));
    put_vertex(out, next, stars.to_at(k))
}

// The contacts from a place to an end, a comma before each.
fn put_more(out: &mut [u8], at: usize, stars: &Held, from: usize, end: usize) -> usize
    ensures { Puts out.old at (more_text (cells (end - from) from stars.now.nbr.now stars.now.kind.now)) out.new result }
{
    let mut next = at;
    for k in from..end {
        let first = letters::word::put_byte(out, next, b',');
        next = put_contact(out, first, stars, k);
    }
    next
}

// The contacts from a place to an end, commas between.
fn put_contacts(out: &mut [u8], at: usize, stars: &Held, from: usize, end: usize) -> usize
    ensures { Puts out.old at (contacts_text (cells (end - from) from stars.now.nbr.now stars.now.kind.now)) out.new result }
{
    if end <= from {
        return at;
    }
    let next = put_contact(out, at, stars, from);
    put_more(out, next, stars, from + 1, end)
}

// A least size, width by height.
fn put_size(out: &mut [u8], at: usize, size: Measure) -> usize
    ensures { Puts out.old at (size_text (told_size size)) out.new result }
{
    let first = letters::word::put_word(out, at, b" at least ");
    let second = letters::number::put_decimal(out, first, usize::from(size.wide));
    let third = letters::word::put_word(out, second, b" by ");
    letters::number::put_decimal(out, third, usize::from(size.tall))
}

// A least size behind the contacts from a place to an end, left out where it is 1 by 1.
fn put_behind(out: &mut [u8], at: usize, from: usize, end: usize, size: Measure) -> usize
    ensures { (nbr kind : List ℕ) → Puts out.old at (size_behind (cells (end - from) from nbr kind) (told_size size)) out.new result }
{
    if !stars::least::is_larger(size.wide, size.tall) {
        return at;
    }
    if end <= from {
        return put_size(out, at, size);
    }
    let next = letters::word::put_byte(out, at, b',');
    put_size(out, next, size)
}

// The line of a room.
fn put_room(out: &mut [u8], at: usize, stars: &Held, sizes: &Least, i: usize) -> usize
    requires { i < 256 }
    ensures { Puts out.old at
        (room_text (4 + i) (held_star stars.now.ends.now stars.now.nbr.now stars.now.kind.now i) (size_of (sizes_lent sizes.now) (4 + i)))
        out.new result }
{
    let from = stars.start_of(i);
    let end = stars.end_of(i);
    let size = Measure {
        wide: sizes.width_of(i),
        tall: sizes.height_of(i),
    };
    let first = letters::line::put_then(out, at, 4 + i, b':');
    let next = put_contacts(out, first, stars, from, end);
    let last = put_behind(out, next, from, end, size);
    letters::word::put_byte(out, last, b'\n')
}

// The lines of all rooms, at the front.
fn put_rooms(stars: &Held, sizes: &Least, out: &mut [u8]) -> usize
    requires { stars.now.count < 256 }
    ensures { Puts out.old 0 (job_text (sized_job (job_held stars.now) (sizes_lent sizes.now))) out.new result }
{
    let mut next: usize = 0;
    for i in 0..stars.count {
        next = put_room(out, next, stars, sizes, i);
    }
    next
}

// The text of a held job; or refusal 4 where a kind is no side, or 17 where the sizes do not pass.
pub fn put_job(stars: &Held, sizes: &Least, out: &mut [u8; 8192]) -> usize
    requires few { stars.now.count < 256 }
    requires passed { (test2 (length (job_held stars.now)) ≡ true) × (test3 (job_held stars.now) ≡ true) × Counts (length (job_held stars.now)) (sizes_lent sizes.now) }
    ensures { (result ≡ length (text_answer (texted (reads (sized_job (job_held stars.now) (sizes_lent sizes.now))))))
        × (out.new ≡ sets out.old 0 (text_answer (texted (reads (sized_job (job_held stars.now) (sizes_lent sizes.now)))))) × (result ≤ 8192) }
{
    if !crate::sided::all_sided(stars) {
        return letters::line::put_refusal(out, 0, Refusal::WrongEntry.number());
    }
    if !sizes.sizes_pass() {
        return letters::line::put_refusal(out, 0, Refusal::WrongSizes.number());
    }
    put_rooms(stars, sizes, out)
}
