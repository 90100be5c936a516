// The shape of a job's bytes: the first field (1), the number of rooms (2), then the stars and the sizes (1).
ghost use Rattle.std.specs.Prelude.{◌≡◌, true, cond, drop};
ghost use Rattle.std.proofs.Math.Option.{none, some};
ghost use Rattle.floor.specs.Fields.{after_fields};
ghost use Rattle.floor.specs.Jobs.{test2, read_stars, read_sizes, read_rooms, read_job};
ghost use Rattle.jobs.specs.Shapes.{counted, behind, pairs_past, sizes_at, reading, told};

use refusals::Refusal;

// How many pairs some stars have, and the place behind them.
#[derive(Clone, Copy)]
pub struct Count {
    pub pairs: usize,
    pub end: usize,
}

// What the bytes of a job are by their shape: the number of rooms, where the first star's field starts, how many pairs there are, and the place behind the stars.
#[derive(Clone, Copy)]
pub struct Shape {
    pub rooms: u8,
    pub first: usize,
    pub pairs: usize,
    pub end: usize,
}

// The pairs of the n stars from a place on, and the place behind them; none where no such stars stand there.
fn count_pairs(job: &[u8], from: usize, n: u8) -> Option<Count>
    ensures { (counted result ≡ pairs_past 0 (read_stars n (drop from job.now))) × behind result job.now (after_fields n (drop from job.now)) }
{
    let count = usize::from(n);
    let mut at = from;
    let mut pairs: usize = 0;
    for i in 0..count {
        let field = fields::reader::read_at(job, at)?;
        if field.tag != 2 {
            return None;
        }
        if (field.end - field.start) % 2 != 0 {
            return None;
        }
        pairs += (field.end - field.start) / 2;
        at = field.end;
    }
    Some(Count { pairs, end: at })
}

// Whether nothing stands at a place, or one field of tag 7 with a width and a height for each of n rooms, and nothing behind it.
fn sizes_follow(job: &[u8], place: usize, n: u8) -> bool
    ensures { read_sizes n (drop place job.now) ≡ cond result (some (sizes_at (drop place job.now))) none }
{
    if job.len() <= place {
        return true;
    }
    let Some(field) = fields::reader::read_at(job, place) else {
        return false;
    };
    if field.tag != 7 {
        return false;
    }
    if field.end - field.start != 2 * usize::from(n) {
        return false;
    }
    job.len() <= field.end
}

// Test 1 of the fields behind the first, of n rooms that passed test 2: the stars, then the sizes or nothing.
fn rest_of(job: &[u8], from: usize, n: u8) -> Result<Shape, Refusal>
    requires { test2 n ≡ true }
    ensures { (reading result job.now ≡ read_rooms true n (drop from job.now)) × told result job.now }
{
    let count = count_pairs(job, from, n).ok_or(Refusal::NotAJob)?;
    if !sizes_follow(job, count.end, n) {
        return Err(Refusal::NotAJob);
    }
    Ok(Shape {
        rooms: n,
        first: from,
        pairs: count.pairs,
        end: count.end,
    })
}

// Test 1 of the first field and of what follows, with test 2 between them.
pub fn shape_of(job: &[u8]) -> Result<Shape, Refusal>
    ensures { (reading result job.now ≡ read_job job.now) × told result job.now }
{
    let first = fields::reader::read_at(job, 0).ok_or(Refusal::NotAJob)?;
    if first.tag != 1 {
        return Err(Refusal::NotAJob);
    }
    if first.end - first.start != 1 {
        return Err(Refusal::NotAJob);
    }
    let n = job[first.start];
    if n == 0 {
        return Err(Refusal::WrongCount);
    }
    if 60 < n {
        return Err(Refusal::WrongCount);
    }
    rest_of(job, first.end, n)
}
