// Whether the neighbours of held stars are vertices of the job.
ghost use Rattle.std.specs.Prelude.{◌≡◌, ◌-◌, ◌<◌, length};
ghost use Rattle.stars.specs.Held.{cells, held_star, job_held};
ghost use Rattle.walls.specs.Jobs.{star_named, named};

use stars::held::Held;

// Whether the sides of every neighbour, from a place to an end, are among so many.
fn part_named(stars: &Held, from: usize, end: usize, sides: usize) -> bool
    ensures { result ≡ star_named sides (cells (end - from) from stars.now.nbr.now stars.now.kind.now) }
{
    for k in from..end {
        if sides <= 2 * stars.to_at(k) + 1 {
            return false;
        }
    }
    true
}

// The same of star i.
#[tactic(auto, using(crate::proofs::Telling::star_whole))]
fn star_named(stars: &Held, i: usize, sides: usize) -> bool
    ensures { result ≡ star_named sides (held_star stars.now.ends.now stars.now.nbr.now stars.now.kind.now i) }
{
    part_named(stars, stars.start_of(i), stars.end_of(i), sides)
}

// The same of every star.
pub fn all_named(stars: &Held, sides: usize) -> bool
    ensures { result ≡ named sides (job_held stars.now) }
{
    for i in 0..stars.count {
        if !star_named(stars, i, sides) {
            return false;
        }
    }
    true
}
