// What the rectangle of a vertex is called, and the colour of its tint: vertices 0 to 3 are the sides of the frame.
use std::fmt;

// A side of the frame, or a room by its number. In short, as it stands on the rectangle, a side is a letter.
#[derive(Clone, Copy)]
pub enum Name {
    North,
    West,
    South,
    East,
    Room(usize),
}

impl From<usize> for Name {
    fn from(vertex: usize) -> Name {
        match vertex {
            0 => Name::North,
            1 => Name::West,
            2 => Name::South,
            3 => Name::East,
            room => Name::Room(room),
        }
    }
}

impl fmt::Display for Name {
    fn fmt<W: fmt::Write>(&self, f: &mut fmt::Formatter<W>) -> fmt::Result {
        match self {
            Name::North => write!(f, "N"),
            Name::West => write!(f, "W"),
            Name::South => write!(f, "S"),
            Name::East => write!(f, "E"),
            Name::Room(room) => write!(f, "{room}"),
        }
    }
}

// A name in full, as shown where the pointer rests on a rectangle.
#[derive(Clone, Copy)]
pub struct Full(pub Name);

impl fmt::Display for Full {
    fn fmt<W: fmt::Write>(&self, f: &mut fmt::Formatter<W>) -> fmt::Result {
        match self.0 {
            Name::North => write!(f, "north side"),
            Name::West => write!(f, "west side"),
            Name::South => write!(f, "south side"),
            Name::East => write!(f, "east side"),
            Name::Room(room) => write!(f, "room {room}"),
        }
    }
}

impl Name {
    // How heavy the short name is: the letters of the frame stand out.
    pub fn weight(self) -> &'static str {
        match self {
            Name::Room(_) => "",
            _ => " font-weight=\"bold\"",
        }
    }

    // The colour of a rectangle by its tint: grey for the frame. Six tints are enough for every floor (tints.rt); white stands in for a seventh.
    pub fn colour(self, tint: Option<u8>) -> &'static str {
        let Name::Room(_) = self else {
            return "#dcdcdc";
        };
        match tint {
            Some(0) => "#fff3d1",
            Some(1) => "#dcebfa",
            Some(2) => "#e0f2dc",
            Some(3) => "#fae1dd",
            Some(4) => "#eae2f6",
            Some(5) => "#d9f1ee",
            _ => "#ffffff",
        }
    }
}
