// The rounds of a narrowing, one after the other, over the held stars and their plan.
ghost use Rattle.std.specs.Prelude.{◌≡◌, ◌<◌};
ghost use Rattle.stars.specs.Sized.{sizes_of};
ghost use Rattle.board.specs.Boards.{slim_in, once_slim, slimmed_on};

use crate::Slim;
use stars::Sizes;

// One round: the first pair that narrows turned, and one turn more; all as it was where there is none. It changes what goes in where that stands, for each copy
// of it takes stack (tests/stack).
fn once(mut held: Slim, sizes: Sizes) -> Slim
    requires { held.turns < 65536 }
    ensures { slim_in result ≡ once_slim (sizes_of sizes) (slim_in held) }
{
    let mut spare = held.stars.kind;
    match narrowing::round(
        &mut spare,
        &held.stars.lent(),
        &sizes.lent(),
        &held.plan.lent(),
    ) {
        Some(plan) => {
            held.stars.kind = spare;
            held.plan = plan;
            held.turns += 1;
            held
        }
        None => held,
    }
}

// Round after round, until one makes no turn: the sheet gets narrower with each that does.
pub fn all(first: Slim, sizes: Sizes) -> Slim
    requires { first.turns ≡ 0 }
    ensures { slim_in result ≡ slimmed_on (sizes_of sizes) (slim_in first) }
{
    let mut held = first;
    // How many rounds there are only the last of them says.
    loop {
        let next = once(held, sizes);
        if next.turns == held.turns {
            return held;
        }
        held = next;
    }
}
