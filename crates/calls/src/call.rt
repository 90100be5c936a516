// Which call a field asks for, by its tag and its value.
ghost use Rattle.std.specs.Prelude.{◌≡◌, ◌+◌, ◌*◌, ◌<◌, ◌≤◌, IfSome};

// The tags of the calls.
const LOAD: u8 = 32;

const TURN: u8 = 33;

const RECTANGLE: u8 = 34;

const TOUCH: u8 = 35;

const WRITE_JOB: u8 = 36;

const WRITE_PLAN: u8 = 37;

const STAR: u8 = 38;

const WRITE_WALLS: u8 = 39;

const SLICES: u8 = 40;

const WRITE_CUTS: u8 = 41;

const NARROW: u8 = 42;

const CHECK: u8 = 43;

// What is written: the held job, the held plan, its walls or its cuts.
#[derive(Clone, Copy)]
pub enum What {
    Job,
    Plan,
    Walls,
    Cuts,
}

// A call and what it is given: a job, two vertices or one, what is written and the bytes that are lent for it, a room and a job, or a job and a plan.
#[derive(Clone, Copy)]
pub enum Call<'a> {
    Load(&'a [u8]),
    Turn(usize, usize),
    Narrow,
    Rectangle(usize),
    Touch(usize, usize),
    Slices,
    Write(What, usize),
    Star(usize, &'a [u8]),
    Check(&'a [u8], &'a [u8]),
}

// A two-byte number, high byte first.
pub fn word(high: u8, low: u8) -> usize
    ensures { result < 65536 }
{
    usize::from(u16::from_be_bytes([high, low]))
}

// What a tag writes.
fn what_of(tag: u8) -> Option<What> {
    match tag {
        WRITE_JOB => Some(What::Job),
        WRITE_PLAN => Some(What::Plan),
        WRITE_WALLS => Some(What::Walls),
        WRITE_CUTS => Some(What::Cuts),
        _ => None,
    }
}

impl<'a> Call<'a> {
    // The call of a tag and a value; none where no call has the tag, or its value is another.
    pub fn of(tag: u8, value: &'a [u8]) -> Option<Call<'a>> {
        match (tag, value) {
            (LOAD, job) => Some(Call::Load(job)),
            (TURN, &[a, b, c, d]) => Some(Call::Turn(word(a, b), word(c, d))),
            (NARROW, []) => Some(Call::Narrow),
            (RECTANGLE, &[a, b]) => Some(Call::Rectangle(word(a, b))),
            (TOUCH, &[a, b, c, d]) => Some(Call::Touch(word(a, b), word(c, d))),
            (SLICES, []) => Some(Call::Slices),
            (STAR, &[a, b, ref job @ ..]) => Some(Call::Star(word(a, b), job)),
            (CHECK, &[a, b, ref rest @ ..]) => {
                let (job, plan) = rest.split_at_checked(word(a, b))?;
                Some(Call::Check(job, plan))
            }
            (_, &[a, b]) => Some(Call::Write(what_of(tag)?, word(a, b))),
            _ => None,
        }
    }
}
