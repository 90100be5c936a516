// How much more than one cell rooms ask for, and the largest number that a wall can have by it.
ghost use Rattle.std.specs.Prelude.{◌≡◌, ◌+◌, ◌-◌, ◌*◌, ◌≤◌, ◌<◌};
ghost use Rattle.floor.specs.Walls.{extra};
ghost use Rattle.stars.specs.Sized.{sizes_lent};
ghost use Rattle.walls.specs.Jobs.{axis_of, top_of_rooms};

use crate::Direction;
use stars::least::Least;

// How much more than one cell room 4 + i asks for; nothing where its size is not told.
#[tactic(auto, using(crate::proofs::Sizing::extra_wide, crate::proofs::Sizing::extra_tall))]
pub fn extra_at(sizes: &Least, i: usize, way: Direction) -> u16
    ensures { (result ≡ extra (axis_of way) (sizes_lent sizes.now) (4 + i)) × (result < 255) }
{
    match way {
        Direction::Upright => u16::from(sizes.width_of(i).saturating_sub(1)),
        Direction::Level => u16::from(sizes.height_of(i).saturating_sub(1)),
    }
}

// The largest number that a wall of so many rooms can have.
pub fn top_of(way: Direction, count: usize, sizes: &Least) -> u16
    requires { count ≤ 60 }
    ensures { result ≡ top_of_rooms (axis_of way) count (sizes_lent sizes.now) }
{
    let mut top = (count + 1) as u16;
    for i in 0..count.min(sizes.told) {
        top += extra_at(sizes, i, way);
    }
    top
}
