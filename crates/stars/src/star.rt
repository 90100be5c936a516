// The tests of one star's bytes, pairs of neighbour and kind. A byte that stands alone at the end is no pair.
ghost use Rattle.std.specs.Prelude.{◌≡◌, ◌+◌, ◌≤◌, get_or};
ghost use Rattle.floor.specs.Lists.{all, pairwise};
ghost use Rattle.floor.specs.Lists.Laws.{bit};
ghost use Rattle.floor.specs.Jobs.{entries, entry_ok, links, changes, goes_on, star_ok};
ghost use Rattle.stars.specs.Pairs.{pair, apart, kinds_link, changes_in};

// Whether an entry of a room may stand in its star.
#[tactic(auto, unfolding(floor::specs::Jobs::entry_ok))]
pub fn entry_ok(rooms: u8, room: usize, to: u8, kind: u8) -> bool
    ensures { result ≡ entry_ok rooms room (pair to kind) }
{
    let v = usize::from(to);
    if usize::from(rooms) + 3 < v {
        return false;
    }
    if v == room {
        return false;
    }
    if 3 < kind {
        return false;
    }
    if 4 <= v {
        return true;
    }
    kind == crate::kinds::side_kind(v)
}

// Whether every entry of a room's star may stand there.
pub fn entries_ok(star: &[u8], rooms: u8, room: usize) -> bool
    ensures { result ≡ all (entry_ok rooms room) (entries star.now) }
{
    let mut rest = star;
    'entries: while let [to, kind, others @ ..] = rest {
        if !entry_ok(rooms, room, *to, *kind) {
            return false;
        }
        rest = others;
    }
    true
}

// Whether a kind stays from one entry to the next, or changes to the one that comes after it.
#[tactic(auto, unfolding(floor::specs::Jobs::goes_on, floor::specs::Jobs::changes))]
fn goes_on(kind: u8, next: u8) -> bool
    ensures { result ≡ goes_on (kinds_link kind next) }
{
    kind == next || usize::from(next) == (usize::from(kind) + 1) % 4
}

// One for a change of kind, nothing where it stays.
#[tactic(auto, unfolding(floor::specs::Jobs::changes))]
fn one_change(kind: u8, next: u8) -> usize
    ensures { (result ≡ bit (changes (kinds_link kind next))) × (result ≤ 1) }
{
    usize::from(kind != next)
}

// The kind of the first of some entries, or a kind that stands in for it where there is none.
fn first_kind(bytes: &[u8], none: u8) -> u8
    ensures { result ≡ (get_or (entries bytes.now) 0 (pair 0 none)).kind }
{
    match bytes {
        [_, kind, ..] => *kind,
        _ => none,
    }
}

// How often the kind changes once round the star, back to the start; 0 where it changes to another than the next.
fn changes_round(star: &[u8]) -> usize
    ensures { result ≡ changes_in (links (entries star.now)) }
{
    let first = first_kind(star, 0);
    let mut many: usize = 0;
    let mut rest = star;
    'round: while let [_, kind, others @ ..] = rest {
        let next = first_kind(others, first);
        if !goes_on(*kind, next) {
            return 0;
        }
        many += one_change(*kind, next);
        rest = others;
    }
    many
}

// Whether the entry of a neighbour stands apart from some others.
fn apart_from(others: &[u8], to: u8, kind: u8) -> bool
    ensures { result ≡ all (apart (pair to kind)) (entries others.now) }
{
    let mut rest = others;
    'others: while let [other, _, behind @ ..] = rest {
        if to == *other {
            return false;
        }
        rest = behind;
    }
    true
}

// Whether no neighbour stands twice.
fn none_twice(star: &[u8]) -> bool
    ensures { result ≡ pairwise apart (entries star.now) }
{
    let mut rest = star;
    'entries: while let [to, kind, others @ ..] = rest {
        if !apart_from(others, *to, *kind) {
            return false;
        }
        rest = others;
    }
    true
}

// Whether the kind changes exactly four times once round the star, 0 to 1 to 2 to 3 to 0, and no neighbour stands twice.
pub fn star_ok(star: &[u8]) -> bool
    ensures { result ≡ star_ok (entries star.now) }
{
    if changes_round(star) != 4 {
        return false;
    }
    none_twice(star)
}
