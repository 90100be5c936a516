// The season's totals: what many jobs, each in a wrapper, come to together.
#![tactic(auto)]

ghost use Rattle.std.specs.Prelude.{◌≡◌, length, replicate};
ghost use Rattle.floor.specs.Calls.{load};
ghost use Rattle.floor.specs.Totals.{season, season_in};
ghost use Rattle.season.specs.Counted.{counted, added};
ghost use Rattle.season.specs.Summed.{told, one_number};

use refusals::Refusal;

mod counts; // counts.rt: what one job counts for
pub mod wrapper; // wrapper.rt: the head of a wrapper
pub mod text; // text.rt: the figures, a line each

// Noughts, one for each figure.
pub fn none() -> [usize; 16]
    ensures { result ≡ replicate 16 0 }
{
    [0; 16]
}

// Some figures added to sums, place by place.
// By index: behind a zip of `iter_mut` nothing is known of what the loop wrote.
fn add_up(sums: &mut [usize], more: &[usize])
    requires { length sums.old ≡ length more.now }
    ensures { sums.new ≡ added sums.old more.now }
{
    for i in 0..sums.len() {
        sums[i] = sums[i].wrapping_add(more[i]);
    }
}

// What a job counts for added to sums.
pub fn add(sums: &mut [usize; 16], job: &[u8])
    ensures { sums.new ≡ added sums.old (counted (load job.now)) }
{
    add_up(sums, &counts::counts_of(job));
}

// The jobs of some wrappers added up, at most 200 of them; 19 where a wrapper is broken, or there are more.
fn sum_up(jobs: &[u8]) -> Result<[usize; 16], Refusal>
    ensures { told result ≡ season jobs.now }
{
    let mut sums = none();
    let mut left: usize = 200;
    let mut at: usize = 0;
    // From wrapper to wrapper: where the next one starts only the one before says.
    while at < jobs.len() {
        if left == 0 {
            return Err(Refusal::NoSeason);
        }
        let Some(field) = fields::reader::read_at(jobs, at) else {
            return Err(Refusal::NoSeason);
        };
        if field.tag != 9 {
            return Err(Refusal::NoSeason);
        }
        add(&mut sums, &jobs[field.start..field.end]);
        left -= 1;
        at = field.end;
    }
    Ok(sums)
}

// The season's totals of some wrapped jobs, put at the front of a lent buffer: 19, 14.
fn put_totals(jobs: &[u8], figures: &mut [usize]) -> Result<(), Refusal>
    ensures { (one_number result ≡ (season_in (season jobs.now) figures.old).number)
        × (figures.new ≡ (season_in (season jobs.now) figures.old).figures) }
{
    let sums = sum_up(jobs)?;
    if figures.len() < 16 {
        return Err(Refusal::TooShort);
    }
    figures[..16].copy_from_slice(&sums);
    Ok(())
}

// The season's totals of some wrapped jobs, put at the front of a lent buffer: 256 more than how many figures they are; 19, and 14 where the buffer is too
// short. One number, as a call from C has no other answer.
#[tactic(auto, unfolding(crate::specs::Summed::one_number))]
pub fn totals(jobs: &[u8], figures: &mut [usize]) -> usize
    ensures { (result ≡ (season_in (season jobs.now) figures.old).number)
        × (figures.new ≡ (season_in (season jobs.now) figures.old).figures) }
{
    match put_totals(jobs, figures) {
        Ok(()) => 256 + 16,
        Err(k) => usize::from(k.number()),
    }
}
