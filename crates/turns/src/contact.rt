// Contacts: two rooms of which one names the other, and the list of one kind in which a neighbour stands.
ghost use Rattle.std.specs.Prelude.{◌≡◌, ◌&&◌, ◌||◌, ◌+◌, leb, eqb, length};
ghost use Rattle.floor.specs.Jobs.{kind_of, list_of};
ghost use Rattle.floor.specs.Turns.{ends_at, is_last, turned_kind, in_contact};
ghost use Rattle.stars.specs.Held.{link_at, held_star, job_held};
ghost use Rattle.turns.specs.InPlace.{place_of};

use stars::held::Held;

// Whether a number is a room's, of so many rooms.
fn is_room(count: usize, v: usize) -> bool
    ensures { result ≡ (leb 4 v && leb v (count + 3)) }
{
    4 <= v && v - 4 < count
}

// Whether two numbers are rooms in contact.
pub fn in_contact(stars: &Held, u: usize, v: usize) -> bool
    ensures { result ≡ in_contact (job_held stars.now) u v }
{
    if !is_room(stars.count, u) {
        return false;
    }
    if !is_room(stars.count, v) {
        return false;
    }
    stars.names(u, v)
}

// The place at which a star names a vertex; the place behind the star where it does not.
#[tactic(auto, using(crate::proofs::Contacts::place_of_lem))]
pub fn place_of(stars: &Held, i: usize, v: usize) -> usize
    ensures { result ≡ place_of stars.now.ends.now stars.now.nbr.now i v }
{
    stars.place_in(stars.start_of(i), stars.end_of(i), v)
}

// The kind with which a star names a vertex; 4 where it does not.
pub fn kind_of(stars: &Held, i: usize, v: usize) -> u8
    ensures { result ≡ kind_of (held_star stars.now.ends.now stars.now.nbr.now stars.now.kind.now i) v }
{
    let place = place_of(stars, i, v);
    if place < stars.end_of(i) {
        return stars.kind_at(place);
    }
    4
}

// Whether a kind is above or to the right.
pub fn leads(kind: u8) -> bool
    ensures { result ≡ (eqb kind 0 || eqb kind 3) }
{
    kind == 0 || kind == 3
}

// The kind that a contact takes: the next side counterclockwise where the neighbour is last of its list, else the side before.
pub fn turned_kind(kind: u8, last: bool) -> u8
    ensures { result ≡ turned_kind kind last }
{
    let k = usize::from(kind);
    if last {
        return ((k + 1) % 4) as u8;
    }
    ((k + 3) % 4) as u8
}

// How many entries of one kind a star has.
pub fn many_of(stars: &Held, i: usize, want: u8) -> usize
    ensures { result ≡ length (list_of (held_star stars.now.ends.now stars.now.nbr.now stars.now.kind.now i) want) }
{
    let mut many: usize = 0;
    for k in stars.start_of(i)..stars.end_of(i) {
        many += usize::from(stars.kind_at(k) == want);
    }
    many
}

// Whether the entry at a place of a star names the vertex, and behind it the kind changes.
fn ends_at(stars: &Held, from: usize, end: usize, k: usize, v: usize) -> bool
    ensures { result ≡ ends_at v (link_at from end stars.now.nbr.now stars.now.kind.now k) }
{
    if stars.to_at(k) != v {
        return false;
    }
    let next = stars::held::place_after(from, end, k);
    stars.kind_at(k) != stars.kind_at(next)
}

// Whether a vertex is last of its list, once round a star.
pub fn last_of(stars: &Held, i: usize, v: usize) -> bool
    ensures { result ≡ is_last (held_star stars.now.ends.now stars.now.nbr.now stars.now.kind.now i) v }
{
    let from = stars.start_of(i);
    let end = stars.end_of(i);
    for k in from..end {
        if ends_at(stars, from, end, k, v) {
            return true;
        }
    }
    false
}
