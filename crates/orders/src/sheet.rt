// The sheet that an order is worked out on. What lies past the end of one of its lists is as at the start, and stays so.
use crate::Visit;
use crate::row::Row;

// A side: its wall, once it is found; the side from which it was found; and the place of the contact by which it was found, which stands in the star of that side's
// room, or in its own where that is a frame side. There is no place for the first side of a wall, and none once the contact was visited.
#[derive(Clone, Copy, Default)]
pub struct Side {
    pub wall: Option<u8>,
    pub parent: u8,
    pub via: Option<u16>,
}

// A wall: where its sides start and end in the order found; how many steps lead to it from walls that are not taken yet; the step that leads to it last, if one does;
// and in a circle the wall that follows.
#[derive(Clone, Copy, Default)]
pub struct Wall {
    pub start: u8,
    pub end: u8,
    pub onward: u8,
    pub need: u16,
    pub last: Option<Visit>,
}

// The sides, and in the order found, wall by wall; how many steps lead to each vertex's high side, to a frame side none; the walls, how many were found, the one now
// stood at, and those put in order.
#[derive(Drop)]
pub struct Sheet {
    pub sides: [Side; 128],
    pub found: Row<128>,
    pub steps: [u16; 64],
    pub walls: [Wall; 64],
    pub many: u8,
    pub here: u8,
    pub taken: Row<64>,
}

impl Sheet {
    // Nothing found yet.
    pub fn new() -> Self {
        Sheet {
            sides: [Side::default(); 128],
            found: Row::new(),
            steps: [0; 64],
            walls: [Wall::default(); 64],
            many: 0,
            here: 0,
            taken: Row::new(),
        }
    }

    // A side.
    pub fn side(&self, side: usize) -> Side {
        self.sides.get(side).copied().unwrap_or_default()
    }

    // A wall.
    pub fn wall(&self, wall: u8) -> Wall {
        self.walls
            .get(usize::from(wall))
            .copied()
            .unwrap_or_default()
    }

    // The wall of a room's low side, the room given by the number of its star.
    pub fn low_wall(&self, star: u8) -> Option<u8> {
        self.side(2 * (4 + usize::from(star))).wall
    }
}
