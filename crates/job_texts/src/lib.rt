// A job as text that staff write by hand: made of a job's bytes, and read back into them.
#![tactic(auto)]

ghost use Rattle.std.specs.Prelude.{◌≡◌, ◌≤◌, length};
ghost use Rattle.std.proofs.lemmas.List.Edits.{sets};
ghost use Rattle.floor.specs.JobTexts.{text_of, job_of};

use entries::Held;

mod write; // write.rt: contacts, a least size, a room's line, and all the lines, written
mod sided; // sided.rt: where a star lies, and whether every kind is a side
mod words; // words.rt: where words start and end
mod values; // values.rt: what a word says
mod sizes; // sizes.rt: a least size, read
mod entries; // entries.rt: stars that are held so far, and the place behind their entries
mod contacts; // contacts.rt: the contacts of a line, read
mod rows; // rows.rt: a room's line, read
mod whole; // whole.rt: a text, read line by line
mod wrong; // wrong.rt: a wrong line, told in words

// What should have stood on a line that is wrong.
#[derive(Clone, Copy, Debug, PartialEq, Eq)]
pub enum Lack {
    RoomNumber(u8),
    Colon,
    Side,
    Neighbour,
    Comma,
    LeastSize,
    NoRoom,
    NoContact,
}

// A wrong line: its number, and what should have stood on it.
#[derive(Clone, Copy, Debug, PartialEq, Eq)]
pub struct Slip {
    pub line: usize,
    pub lack: Lack,
}

// A contact that was read: its neighbour and its kind, and the text of the next thing.
#[derive(Clone, Copy)]
pub struct Contact<'a> {
    pub to: u8,
    pub kind: u8,
    pub rest: &'a [u8],
}

// A least size: a width and a height.
#[derive(Clone, Copy)]
pub struct Measure {
    pub wide: u8,
    pub tall: u8,
}

impl Measure {
    // The size of a room of which none is said.
    const ONE: Measure = Measure { wide: 1, tall: 1 };
}

// What came of a line's contacts: the stars with them, and the least size.
#[derive(Clone, Copy)]
pub struct Row {
    pub held: Held,
    pub size: Measure,
}

// The rooms of the lines so far: their stars, and a width and a height for each.
#[derive(Clone, Copy)]
pub struct Rooms {
    pub held: Held,
    pub list: [u8; 120],
}

// What is printed for the bytes of a job, at the front; how many bytes that takes is handed back.
pub fn text_of(job: &[u8], out: &mut [u8; 8192]) -> usize
    ensures { (result ≡ length (text_of job.now)) × (out.new ≡ sets out.old 0 (text_of job.now))
        × (result ≤ 8192) }
{
    if 8192 < job.len() {
        return letters::word::put_too_long(out, 0);
    }
    match jobs::hold_job(job) {
        Ok(held) => write::put_job(&held.stars.lent(), &held.sizes.lent(), out),
        Err(k) => letters::line::put_refusal(out, 0, k.number()),
    }
}

// What is printed for the text of a job, at the front; how many bytes that takes is handed back.
pub fn job_of(text: &[u8], out: &mut [u8; 8192]) -> usize
    ensures { (result ≡ length (job_of text.now)) × (out.new ≡ sets out.old 0 (job_of text.now))
        × (result ≤ 8192) }
{
    if 16384 < text.len() {
        return letters::word::put_too_long(out, 0);
    }
    match whole::read_text(text) {
        Ok(read) => jobs::write_job(&read.stars.lent(), &read.sizes.lent(), out).unwrap_or(0),
        Err(slip) => wrong::put_slip(out, slip),
    }
}
