// The held stars and sizes, written as fields into a lent buffer.
ghost use Rattle.std.specs.Prelude.{◌≡◌, List, ℕ, ◌+◌, ◌-◌, ◌*◌, ◌≤◌, ◌<◌, length};
ghost use Rattle.std.proofs.lemmas.List.Edits.{sets};
ghost use Rattle.floor.specs.Jobs.{star_bytes, write_stars, write_job, size_bytes, write_sizes};
ghost use Rattle.stars.specs.Held.{cells, job_held, job_in};
ghost use Rattle.stars.specs.Sized.{sizes_in, sizes_lent};
ghost use Rattle.jobs.specs.Writes.{field_lent};

use stars::held::Held;
use stars::least::Least;

// The m entries from a place on, written.
fn put_pairs<'a>(out: &mut [u8], at: usize, stars: &Held<'a>, from: usize, m: usize)
    requires { (at + 2 * m ≤ length out.old) × (from + m ≤ length stars.now.nbr.now) }
    ensures { out.new ≡ sets out.old at (star_bytes (cells m from stars.now.nbr.now stars.now.kind.now)) }
{
    for i in 0..m {
        let j = at + 2 * i;
        out[j] = stars.to_at(from + i) as u8;
        out[j + 1] = stars.kind_at(from + i);
    }
}

// The field of a star, written; the place behind it is handed back.
fn put_field<'a>(out: &mut [u8], at: usize, stars: &Held<'a>, i: usize) -> usize
    requires { (length stars.now.nbr.now ≤ 360) × (at + length (field_lent stars.now i) ≤ length out.old) }
    ensures { (out.new ≡ sets out.old at (field_lent stars.now i))
        × (result ≡ at + length (field_lent stars.now i)) }
{
    let m = stars.star_length(i);
    fields::put_head(out, at, 2, (2 * m) as u16);
    put_pairs(out, at + 3, stars, stars.start_of(i), m);
    at + 3 + 2 * m
}

// Every star's field, written from a place on.
// The bound on the neighbours stands here and no invariant of `Held` says it: others lend stars of any length.
pub fn put_stars<'a>(out: &mut [u8], from: usize, stars: &Held<'a>)
    requires { (length stars.now.nbr.now ≤ 360) × («from» + length (write_stars (job_held stars.now)) ≤ length out.old) }
    ensures { out.new ≡ sets out.old «from» (write_stars (job_held stars.now)) }
{
    let mut at = from;
    for i in 0..stars.count {
        at = put_field(out, at, stars, i);
    }
}

// How many bytes the job takes, whatever the kinds.
pub fn job_length<'a>(stars: &Held<'a>) -> usize
    requires { (length stars.now.nbr.now ≤ 360) × (stars.now.count < 256) }
    ensures { ((kind : List ℕ) → result ≡ length (write_job (job_in stars.now.count stars.now.ends.now stars.now.nbr.now kind)))
        × (result ≤ 4 + 723 * stars.now.count) }
{
    let mut total: usize = 4;
    for i in 0..stars.count {
        total += 3 + 2 * stars.star_length(i);
    }
    total
}

// How many bytes the sizes of so many rooms take, whatever they are.
pub fn sizes_length(told: usize) -> usize
    requires { told < 256 }
    ensures { ((sizes : List ℕ) → result ≡ length (write_sizes (sizes_in told sizes))) × (result ≤ 513) }
{
    if told == 0 {
        return 0;
    }
    3 + 2 * told
}

// The widths and heights of the rooms, written from a place on.
fn put_list<'a>(out: &mut [u8], at: usize, sizes: &Least<'a>)
    requires { at + 2 * sizes.now.told ≤ length out.old }
    ensures { out.new ≡ sets out.old at (size_bytes (sizes_lent sizes.now)) }
{
    for i in 0..sizes.told {
        let j = at + 2 * i;
        let wide = sizes.width_of(i);
        let tall = sizes.height_of(i);
        out[j] = wide;
        out[j + 1] = tall;
    }
}

// The field of the sizes, written from a place on; nothing where none are told.
pub fn put_sizes<'a>(out: &mut [u8], at: usize, sizes: &Least<'a>)
    requires { (sizes.now.told < 256) × (at + length (write_sizes (sizes_lent sizes.now)) ≤ length out.old) }
    ensures { out.new ≡ sets out.old at (write_sizes (sizes_lent sizes.now)) }
{
    if sizes.told == 0 {
        return;
    }
    fields::put_head(out, at, 7, (2 * sizes.told) as u16);
    put_list(out, at + 3, sizes);
}
