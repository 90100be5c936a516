// Which contact of held stars turns, and one kind of it set where it stands.
ghost use Rattle.std.specs.Prelude.{◌≡◌, ◌+◌, ◌≤◌, ◌<◌, set};
ghost use Rattle.stars.specs.Held.{job_held};
ghost use Rattle.turns.specs.InPlace.{swing_said, swing_at, swing_of};

use crate::{Swing, contact};
use refusals::Refusal;
use stars::held::Held;

// The kind at a place, set; nothing past the end.
pub fn set_kind(kind: &mut [u8], place: usize, new: u8)
    ensures { kind.new ≡ set kind.old place new }
{
    // By index: behind a `get_mut` a proof knows the length of the slice alone.
    if place < kind.len() {
        kind[place] = new;
    }
}

// Which contact turns, where the kind with which the first room names the second is known.
fn swing_at(stars: &Held, u: usize, v: usize, known: u8) -> Result<Swing, Refusal>
    requires { (4 ≤ u) × (u < 4 + stars.now.count) × (4 ≤ v) × (v < 4 + stars.now.count) }
    ensures { swing_said result ≡ swing_at (job_held stars.now) u v known }
{
    if contact::many_of(stars, u - 4, known) < 2 {
        return Err(Refusal::CannotTurn);
    }
    let other = stars::kinds::opposite_of(known);
    if contact::many_of(stars, v - 4, other) < 2 {
        return Err(Refusal::CannotTurn);
    }
    let last = contact::last_of(stars, u - 4, v);
    Ok(Swing {
        first: u,
        second: v,
        kind: contact::turned_kind(known, last),
    })
}

// Which contact turns, or why none does.
pub fn swing_of(stars: &Held, u: usize, v: usize) -> Result<Swing, Refusal>
    ensures { swing_said result ≡ swing_of (job_held stars.now) u v }
{
    if !contact::in_contact(stars, u, v) {
        return Err(Refusal::NoContact);
    }
    let known = contact::kind_of(stars, u - 4, v);
    if contact::leads(known) {
        return swing_at(stars, u, v, known);
    }
    swing_at(stars, v, u, stars::kinds::opposite_of(known))
}
