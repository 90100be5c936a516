// The stars and the sizes of a job's bytes, held one behind the other.
ghost use Rattle.std.specs.Prelude.{◌≡◌, map, ◌+◌, ◌*◌, ◌/◌, ◌≤◌, length, drop};
ghost use Rattle.std.proofs.lemmas.List.Edits.{sets};
ghost use Rattle.floor.specs.Jobs.{entries, pairs_in, size_pairs, size_bytes};
ghost use Rattle.stars.specs.Held.{to_of, kind_of, held_of};
ghost use Rattle.stars.specs.Sized.{held_sizes};
ghost use Rattle.jobs.specs.Shapes.{stars_at, sizes_at};

use stars::{Sizes, Stars};

// The entries of one star, put from place m on.
fn put_star(nbr: &mut [u16], kind: &mut [u8], m: usize, star: &[u8])
    requires { (m + length star.now / 2 ≤ length nbr.old) × (m + length star.now / 2 ≤ length kind.old) }
    ensures { (nbr.new ≡ sets nbr.old m (map to_of (entries star.now)))
        × (kind.new ≡ sets kind.old m (map kind_of (entries star.now))) }
{
    let k = star.len() / 2;
    for i in 0..k {
        nbr[m + i] = u16::from(star[2 * i]);
        kind[m + i] = star[2 * i + 1];
    }
}

// The n stars from a place on, held.
pub fn hold(job: &[u8], from: usize, n: u8) -> Stars
    requires { (n ≤ 60) × (pairs_in (stars_at n (drop from job.now)) ≤ 360) }
    ensures { result ≡ held_of (stars_at n (drop from job.now)) }
{
    let count = usize::from(n);
    let mut held = stars::held::none_held();
    let mut m: usize = 0;
    let mut at = from;
    for i in 0..count {
        let star = fields::value_at(job, at);
        put_star(&mut held.nbr, &mut held.kind, m, star);
        m += star.len() / 2;
        held.ends[i] = m as u16;
        at = fields::after_at(job, at);
    }
    held.count = n;
    held
}

// The sizes of some bytes, a width and a height each, put at the front.
fn put_sizes(list: &mut [u8], bytes: &[u8])
    requires { 2 * (length bytes.now / 2) ≤ length list.old }
    ensures { list.new ≡ sets list.old 0 (size_bytes (size_pairs bytes.now)) }
{
    let many = bytes.len() / 2;
    for i in 0..many {
        let wide = bytes[2 * i];
        let tall = bytes[2 * i + 1];
        list[2 * i] = wide;
        list[2 * i + 1] = tall;
    }
}

// The sizes of the field at a place, held.
pub fn hold_sizes(job: &[u8], at: usize) -> Sizes
    requires { length (sizes_at (drop at job.now)) ≤ 60 }
    ensures { result ≡ held_sizes (sizes_at (drop at job.now)) }
{
    let bytes = fields::value_at(job, at);
    let mut sizes = stars::least::none_told();
    put_sizes(&mut sizes.list, bytes);
    sizes.told = (bytes.len() / 2) as u8;
    sizes
}
