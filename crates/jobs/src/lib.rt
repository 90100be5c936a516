// Jobs from bytes: tests 1 to 3, tests 1 to 6 and 17, the star question, and writing a job back.
#![tactic(auto)]

ghost use Rattle.std.specs.Prelude.{◌≡◌, Err};
ghost use Rattle.floor.specs.Jobs.{sized_job, read_job, raw_star, first_three, first_six, sizes_pass, write_sized};
ghost use Rattle.jobs.specs.Reads.{Tells};
ghost use Rattle.jobs.specs.Writes.{InReach};
ghost use Rattle.stars.specs.Held.{job_held};
ghost use Rattle.stars.specs.Sized.{sizes_lent};
ghost use Rattle.fields.specs.Writes.{replied, writing};
ghost use Rattle.refusals.specs.declared.Refusal.TheVariants.{NotAJob};

use refusals::Refusal;
use stars::held::Held;
use stars::least::Least;
use stars::{Sizes, Stars};

mod outline; // outline.rt: the first field, the number of rooms, and the remaining shape
mod walk; // walk.rt: tests 4 and 5, star by star along the bytes
mod fill; // fill.rt: the stars and the sizes held
mod tests; // tests.rt: tests 3 to 6 and 17 of a job of the right shape
mod put; // put.rt: the held stars and sizes, written

// A job, read: the stars and the least sizes.
#[derive(Clone, Copy)]
pub struct Job {
    pub stars: Stars,
    pub sizes: Sizes,
}

// A job's bytes, read and put through tests 1 to 3: what passes is held, and may yet be no floor.
pub fn hold_job(job: &[u8]) -> Result<Job, Refusal>
    ensures { Tells result (first_three (read_job job.now)) }
{
    let shape = outline::shape_of(job)?;
    tests::kept(job, shape)
}

// A job's bytes, read and put through tests 1 to 6 and 17.
pub fn read_job(job: &[u8]) -> Result<Job, Refusal>
    ensures { Tells result (sizes_pass (first_six (read_job job.now))) }
{
    let shape = outline::shape_of(job)?;
    tests::tested(job, shape)
}

// The star question: the very bytes of a room's star; none where the bytes fail test 1 or 2 or the number is no room.
pub fn raw_star(job: &[u8], room: usize) -> &[u8]
    ensures { result.now ≡ raw_star job.now room }
{
    let Ok(shape) = outline::shape_of(job) else {
        return &job[..0];
    };
    if room < 4 {
        return &job[..0];
    }
    if usize::from(shape.rooms) + 3 < room {
        return &job[..0];
    }
    let at = walk::place_after(job, room - 3);
    fields::value_at(job, at)
}

// The held job, written to the front of a lent buffer; nothing behind it is touched, and nothing at all where it is too short.
fn write_lent<'a>(stars: &Held<'a>, sizes: &Least<'a>, out: &mut [u8]) -> Result<usize, Refusal>
    requires { InReach stars.now sizes.now }
    ensures { (replied result ≡ (writing (write_sized (sized_job (job_held stars.now) (sizes_lent sizes.now))) out.old).reply)
        × (out.new ≡ (writing (write_sized (sized_job (job_held stars.now) (sizes_lent sizes.now))) out.old).buffer) }
{
    let behind = put::job_length(stars);
    let length = behind + put::sizes_length(sizes.told);
    if out.len() < length {
        return Err(Refusal::TooShort);
    }
    fields::put_head(out, 0, 1, 1);
    out[3] = stars.count as u8;
    put::put_stars(out, 4, stars);
    put::put_sizes(out, behind, sizes);
    Ok(length)
}

// The held job, written to the front of a lent buffer, and nothing behind it. What is lent may be more than a job's fields can tell: it is refused, and nothing is written.
pub fn write_job<'a>(stars: &Held<'a>, sizes: &Least<'a>, out: &mut [u8]) -> Result<usize, Refusal>
    ensures within { InReach stars.now sizes.now → (replied result ≡ (writing (write_sized (sized_job (job_held stars.now) (sizes_lent sizes.now))) out.old).reply)
        × (out.new ≡ (writing (write_sized (sized_job (job_held stars.now) (sizes_lent sizes.now))) out.old).buffer) }
    ensures beyond { (InReach stars.now sizes.now → ⊥) → (result ≡ Err NotAJob) × (out.new ≡ out.old) }
{
    if 255 < stars.count || 360 < stars.nbr.len() || 255 < sizes.told {
        return Err(Refusal::NotAJob);
    }
    write_lent(stars, sizes, out)
}
