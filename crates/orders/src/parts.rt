// The parts of a star, one for each kind: once round it, entries of one kind stand together.
ghost use Rattle.std.specs.Prelude.{◌<◌};

use crate::Lay;
use crate::sheet::Sheet;
use stars::held::Held;

// Where the parts of star i start, found by going round it once: before the first entry stands the last.
pub fn note_part(starts: &mut [u16; 4], stars: &Held, i: usize) {
    let end = stars.end_of(i);
    let mut before = if 0 < end { stars.kind_at(end - 1) } else { 0 };
    for k in stars.start_of(i)..end {
        let this = stars.kind_at(k);
        if this != before {
            starts[usize::from(this % 4)] = (k % 65536) as u16;
        }
        before = this;
    }
}

impl<'a> Lay<'a> {
    // Where star i's part of a kind starts.
    pub(crate) fn part_start(&self, i: usize, want: u8) -> usize
        ensures { result < 65536 }
    {
        if self.parts.len() <= i {
            return 0;
        }
        usize::from(self.parts[i][usize::from(want % 4)])
    }

    // Where it ends: where that of the next kind starts.
    pub(crate) fn part_end(&self, i: usize, want: u8) -> usize
        ensures { result < 65536 }
    {
        self.part_start(i, want % 4 + 1)
    }

    // How many entries of a kind star i has.
    fn part_length(&self, i: usize, want: u8) -> u16 {
        let first = self.part_start(i, want);
        let stop = self.part_end(i, want);
        let many = if first < stop {
            stop - first
        } else {
            self.stars.end_of(i).saturating_sub(first) + stop.saturating_sub(self.stars.start_of(i))
        };
        (many % 65536) as u16
    }

    // How many steps lead to each room's high side: one by each contact across, and one from its own low side. A contact with the frame counts for the latter once more.
    pub(crate) fn count_steps(&self, sheet: &mut Sheet) {
        for i in 0..self.stars.count.min(60) {
            let one = self.part_length(i, self.cross);
            let other = self.part_length(i, self.cross % 4 + 2);
            sheet.steps[4 + i] = one.saturating_add(other).saturating_add(1);
        }
    }
}
