// Where the lines of a plan stand in the picture, in units of 0.3 mm: a cell is the larger the fewer there are, so that a floor of up to 24 cells
// fits a page of A4 either way round at its full size, and one of 62 cells a page of A3.
ghost use Rattle.std.specs.Prelude.{◌≤◌, ◌<◌};

// How many cells a sheet has across, from west to east, and up, from south to north; and whether its rooms have least sizes, of which a line is said below.
#[derive(Clone, Copy)]
pub struct Sheet {
    pub width: u16,
    pub height: u16,
    pub sized: bool,
}

impl Sheet {
    // The units of some cells: from 20 to 80 each, by the sheet's longer side, and always an even number.
    fn units(self, cells: u16) -> usize
        ensures { result < 5300000 }
    {
        let cells = usize::from(cells);
        match self.width.max(self.height) {
            0..=6 => 80 * cells,
            7..=8 => 60 * cells,
            9..=12 => 40 * cells,
            13..=16 => 30 * cells,
            17..=20 => 24 * cells,
            _ => 20 * cells,
        }
    }

    // The units of one cell.
    pub fn cell(self) -> usize
        ensures { result < 5300000 }
    {
        self.units(1)
    }

    // The units from one line to another; none where they stand the wrong way round.
    pub fn span(self, a: u16, b: u16) -> usize
        ensures { result < 5300000 }
    {
        self.units(b.saturating_sub(a))
    }

    // How much is left free at the left and at the right: 40 units for the numbers of the lines, and what a narrow sheet leaves of the words' room.
    fn side(self) -> usize
        ensures { (40 ≤ result) × (result ≤ 280) }
    {
        40 + 480usize.saturating_sub(self.span(0, self.width)) / 2
    }

    // Where an upright line stands, from the left of the picture.
    pub fn across(self, x: u16) -> usize
        ensures { (40 ≤ result) × (result < 5400000) }
    {
        self.side() + self.span(0, x)
    }

    // Where a level line stands, from the top of the picture.
    pub fn down(self, y: u16) -> usize
        ensures { (68 ≤ result) × (result < 5400000) }
    {
        68 + self.span(y, self.height)
    }

    // Halfway between two upright lines.
    pub fn middle_across(self, x1: u16, x2: u16) -> usize
        ensures { (40 ≤ result) × (result < 5400000) }
    {
        (self.across(x1) + self.across(x2)) / 2
    }

    // Halfway between two level lines.
    pub fn middle_down(self, y1: u16, y2: u16) -> usize
        ensures { (68 ≤ result) × (result < 5400000) }
    {
        (self.down(y1) + self.down(y2)) / 2
    }

    // The last line of the rooms across: one less than its cells, or 0.
    pub fn last_across(self) -> u16 {
        self.width.saturating_sub(1)
    }

    // The last line of the rooms up.
    pub fn last_up(self) -> u16 {
        self.height.saturating_sub(1)
    }

    // How wide the whole picture is: what is free at the left is free at the right.
    pub fn picture_width(self) -> usize
        ensures { (80 ≤ result) × (result < 5500000) }
    {
        self.across(self.width) + self.side()
    }

    // How high the whole picture is, with five lines of words at the bottom, or six.
    pub fn picture_height(self) -> usize
        ensures { (144 ≤ result) × (result < 5500000) }
    {
        let five = self.down(0) + 85;
        if self.sized {
            return five + 12;
        }
        five
    }
}
