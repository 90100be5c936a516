// The walls of held stars, with their rooms' least sizes, and their numbers: passes over the rules, until every rule is met or a number is too large.
#![tactic(auto)]

ghost use Rattle.std.specs.Prelude.{◌≡◌, true, ◌&&◌, ◌+◌, ◌*◌, ◌≤◌, length, get_or};
ghost use Rattle.floor.specs.Jobs.{test2};
ghost use Rattle.floor.specs.Walls.{upright};
ghost use Rattle.stars.specs.Held.{job_held};
ghost use Rattle.stars.specs.Sized.{sizes_lent};
ghost use Rattle.walls.specs.Jobs.{axis_of};
ghost use Rattle.walls.specs.Steps.{Fronts, rules_of, sides_of};
ghost use Rattle.walls.specs.Numbers.{vertices, numbers_in, numbers_held, width_in, walls_of, sides_at, sheet_at};

use rules::Rules;
use stars::held::Held;
use stars::least::Least;

mod steps; // steps.rt: one rule, and what it does to the numbers
mod rules; // rules.rt: the rules of an entry, a star, a room, a job
mod least; // least.rt: how much more than one cell rooms ask for
mod vertices; // vertices.rt: whether every neighbour is a vertex of the job
mod number; // number.rt: the numbers in one direction

// What running some rules did to the numbers, the less before the more: nothing was to do, a number was raised, or one would pass the top.
#[derive(Clone, Copy, PartialEq, Eq, PartialOrd, Ord)]
enum Step {
    Kept,
    Raised,
    Over,
}

// The two directions of walls.
#[derive(Clone, Copy)]
enum Direction {
    Upright,
    Level,
}

// The number of an upright wall, F1.
#[derive(Clone, Copy)]
pub struct F1(pub u16);

// The number of a level wall, F2.
#[derive(Clone, Copy)]
pub struct F2(pub u16);

// The upright numbers of every side, low then high, vertex by vertex.
#[derive(Clone, Copy)]
pub struct Uprights(pub [u16; 128]);

// The level numbers of every side.
#[derive(Clone, Copy)]
pub struct Levels(pub [u16; 128]);

// The walls of a job: their numbers, noughts behind them.
#[derive(Clone, Copy)]
pub struct Walls {
    pub uprights: Uprights,
    pub levels: Levels,
}

// The numbers of the walls on a vertex's four sides.
#[derive(Clone, Copy)]
pub struct Sides {
    pub left: F1,
    pub right: F1,
    pub lower: F2,
    pub upper: F2,
}

// How many cells wide and high a sheet is.
#[derive(Clone, Copy)]
pub struct Sheet {
    pub width: usize,
    pub height: usize,
}

// Whether the stars are a job that can be numbered: as many rooms as test 2 allows, and every neighbour a vertex.
#[tactic(auto, using(crate::proofs::Numbering::no_room, crate::proofs::Numbering::many_rooms, crate::proofs::Numbering::some_rooms))]
fn can_number(stars: &Held) -> bool
    ensures { result ≡ (test2 (length (job_held stars.now)) && vertices (job_held stars.now)) }
{
    match stars.count {
        1..=60 => vertices::all_named(stars, 2 * (stars.count + 4)),
        _ => false,
    }
}

// The numbers in one direction, left in front of a list.
fn number_front(list: &mut [u16], rules: &Rules, parts: &[[u16; 4]]) -> bool
    requires { sides_of rules.now ≤ length list.old }
    ensures { Fronts result (rules_of rules.now) (sides_of rules.now) list.old list.new }
{
    let sides = 2 * (rules.stars.count + 4);
    rules.number(&mut list[..sides], parts)
}

// The numbers in one direction, of a job that can be numbered.
fn numbers_in(way: Direction, stars: &Held, sizes: &Least, parts: &[[u16; 4]]) -> Option<[u16; 128]>
    requires { (test2 (length (job_held stars.now)) && vertices (job_held stars.now)) ≡ true }
    ensures { result ≡ numbers_held (numbers_in (axis_of way) (job_held stars.now) (sizes_lent sizes.now)) }
{
    let rules = Rules {
        way,
        stars: *stars,
        sizes: *sizes,
        top: least::top_of(way, stars.count, sizes),
    };
    let mut list = [0u16; 128];
    if number_front(&mut list, &rules, parts) {
        Some(list)
    } else {
        None
    }
}

// The numbers in both directions, of rooms with these least sizes; none where the walls run in a circle.
pub fn walls_of(stars: &Held, sizes: &Least) -> Option<Walls>
    ensures { result ≡ walls_of (job_held stars.now) (sizes_lent sizes.now) }
{
    if !can_number(stars) {
        return None;
    }
    let mut parts = [[0u16; 4]; 64];
    orders::note_parts(&mut parts, stars);
    let uprights = numbers_in(Direction::Upright, stars, sizes, &parts)?;
    let levels = numbers_in(Direction::Level, stars, sizes, &parts)?;
    Some(Walls {
        uprights: Uprights(uprights),
        levels: Levels(levels),
    })
}

// The number of a vertex's low side, or, one further on, of its high side.
fn side_number(list: &[u16], v: usize, on: usize) -> u16
    requires { on ≤ 1 }
    ensures { result ≡ get_or list.now (2 * v + on) 0 }
{
    if list.len() <= v {
        return 0;
    }
    list.get(2 * v + on).copied().unwrap_or(0)
}

// The walls on the four sides of a vertex by the upright and the level numbers; noughts for a number that is none.
// Two lists and no Walls: what is promised is of lists of any length.
#[tactic(auto, using(crate::proofs::Sheets::four_sides))]
pub fn sides_at(xs: &[u16], ys: &[u16], v: usize) -> Sides
    ensures { result ≡ sides_at xs.now ys.now v }
{
    Sides {
        left: F1(side_number(xs, v, 0)),
        right: F1(side_number(xs, v, 1)),
        lower: F2(side_number(ys, v, 0)),
        upper: F2(side_number(ys, v, 1)),
    }
}

// The sheet: E's left wall and N's bottom wall, and one cell more.
pub fn sheet_at(xs: &[u16], ys: &[u16]) -> Sheet
    ensures { result ≡ sheet_at xs.now ys.now }
{
    let left = sides_at(xs, ys, 3).left;
    let lower = sides_at(xs, ys, 0).lower;
    Sheet {
        width: usize::from(left.0) + 1,
        height: usize::from(lower.0) + 1,
    }
}

// The width of the sheet by the upright numbers alone, without the work of the level ones; none where there are none.
#[tactic(auto, using(crate::proofs::Numbering::no_width, crate::proofs::Sheets::no_upright, crate::proofs::Sheets::the_width))]
pub fn width_of(stars: &Held, sizes: &Least) -> Option<usize>
    ensures { result ≡ width_in (numbers_in upright (job_held stars.now) (sizes_lent sizes.now)) }
{
    if !can_number(stars) {
        return None;
    }
    let mut parts = [[0u16; 4]; 64];
    orders::note_parts(&mut parts, stars);
    let across = Direction::Upright;
    let xs = numbers_in(across, stars, sizes, &parts)?;
    Some(usize::from(side_number(&xs, 3, 0)) + 1)
}
