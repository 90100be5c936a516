// Turning: a contact of the held stars turned where it stands, over slices of them. Two kinds change, and no entry moves.
#![tactic(auto)]

ghost use Rattle.std.specs.Prelude.{◌≡◌};
ghost use Rattle.stars.specs.Held.{job_in};
ghost use Rattle.turns.specs.InPlace.{swing_said, swing_of, turned_in};

use refusals::Refusal;
use stars::held::Held;

mod contact; // contact.rt: whether two rooms are in contact, and the lists that the contact stands in
mod place; // place.rt: which contact turns, and one kind of it set

// The contact that turns: two rooms, and the kind with which the first then names the second.
#[derive(Clone, Copy, PartialEq, Eq)]
pub struct Swing {
    pub first: usize,
    pub second: usize,
    pub kind: u8,
}

// A contact of held stars turned: which one, and its two kinds set among the lent ones, which stay as they are where it is refused.
// The kinds are lent to be changed, so no Held stands beside them as a parameter.
pub fn turn_held<'a>(
    kind: &mut [u8],
    ends: &'a [u16],
    nbr: &'a [u16],
    count: usize,
    u: usize,
    v: usize,
) -> Result<Swing, Refusal>
    ensures { (swing_said result ≡ swing_of (job_in count ends.now nbr.now kind.old) u v)
        × (kind.new ≡ turned_in count ends.now nbr.now kind.old u v) }
{
    let stars = Held {
        count,
        ends,
        nbr,
        kind: &*kind,
    };
    let swing = place::swing_of(&stars, u, v)?;
    let there = contact::place_of(&stars, swing.first - 4, swing.second);
    let back = contact::place_of(&stars, swing.second - 4, swing.first);
    place::set_kind(kind, there, swing.kind);
    place::set_kind(kind, back, stars::kinds::opposite_of(swing.kind));
    Ok(swing)
}
