// Tints such that no two neighbouring rooms have the same. The rooms are put aside one by one, each time the one with the fewest neighbours left, and tinted
// the other way round, each with the first tint that no tinted neighbour has. Rooms and their contacts can be drawn on paper without a crossing, so that
// always one has at most five neighbours left (Euler), and six tints are enough.
ghost use Rattle.std.specs.Prelude.{◌≤◌, ◌<◌};

use drawing::{Layout, Touch};

// For each vertex whether it touches another.
type Row = [bool; 64];

// The tints of the vertices, as far as they have one.
#[derive(Clone, Copy)]
pub struct Tints([Option<u8>; 64]);

// Whether two rooms have a wall between them.
fn walled(plan: &Layout, u: usize, v: usize) -> bool {
    let touch = plan.rectangle(u).touch(plan.rectangle(v));
    let Touch::Wall(_, _) = touch else {
        return false;
    };
    true
}

// Which rooms touch: a row for each vertex. A number that is no room touches none.
fn rows_of(plan: &Layout) -> [Row; 64] {
    let mut near = [[false; 64]; 64];
    for u in 4..64 {
        for v in 4..64 {
            near[u][v] = walled(plan, u, v);
        }
    }
    near
}

// How many neighbours a room has left.
fn left(row: &Row, aside: &Row) -> usize {
    row.iter()
        .zip(aside)
        .filter(|&(near, aside)| *near && !*aside)
        .count()
}

// The room with the fewest neighbours left, of those that are not put aside.
fn loosest(near: &[Row; 64], aside: &Row) -> usize
    ensures { result < 64 }
{
    let mut best = 4;
    for v in 5..64 {
        if !aside[v] && (aside[best] || left(&near[v], aside) < left(&near[best], aside)) {
            best = v;
        }
    }
    best
}

// All rooms in the order in which they are put aside.
fn put_aside(near: &[Row; 64]) -> [usize; 60] {
    let mut aside = [false; 64];
    let mut order = [0; 60];
    for place in order.iter_mut() {
        let v = loosest(near, &aside);
        *place = v;
        aside[v] = true;
    }
    order
}

impl Tints {
    // The tint of a vertex.
    pub fn of(&self, v: usize) -> Option<u8> {
        *self.0.get(v)?
    }

    // Whether a neighbour has a tint.
    fn taken(&self, row: &Row, tint: u8) -> bool {
        row.iter()
            .zip(&self.0)
            .any(|(near, held)| *near && *held == Some(tint))
    }

    // The first tint that no neighbour of a room has: there are 60 to choose from, and a room has 59 neighbours at most.
    fn first_free(&self, row: &Row) -> Option<u8> {
        (0..60).find(|&tint| !self.taken(row, tint))
    }
}

// The tint of each vertex: the rooms are tinted that were put aside last first.
pub fn tints_of(plan: &Layout) -> Tints {
    let near = rows_of(plan);
    let mut tints = Tints([None; 64]);
    for &v in put_aside(&near).iter().rev() {
        if let Some(row) = near.get(v) {
            tints.0[v] = tints.first_free(row);
        }
    }
    tints
}
