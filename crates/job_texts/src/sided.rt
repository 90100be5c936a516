// The stars of a held job: where each lies, and whether every kind is a side, since only such a job can be written as text.
ghost use Rattle.std.specs.Prelude.{◌≡◌};
ghost use Rattle.floor.specs.JobTexts.{sided};
ghost use Rattle.stars.specs.Held.{held_star, job_held};
ghost use Rattle.job_texts.specs.Writes.{star_sided};

use stars::held::Held;

// Whether every kind of a star is a side.
fn star_sided(stars: &Held, i: usize) -> bool
    ensures { result ≡ star_sided (held_star stars.now.ends.now stars.now.nbr.now stars.now.kind.now i) }
{
    (stars.start_of(i)..stars.end_of(i)).all(|k| stars.kind_at(k) < 4)
}

// Whether every kind of every star is a side.
pub fn all_sided(stars: &Held) -> bool
    ensures { result ≡ sided (job_held stars.now) }
{
    (0..stars.count).all(|i| star_sided(stars, i))
}
