// A circle among the walls that are left over: each of them has one before it, so that going back and back ends in a circle.
use crate::sheet::Sheet;
use crate::{Lay, Visit};

impl Sheet {
    // A step between two walls that were left over: by it one may go back.
    fn note_step(&mut self, step: Visit, high: u8) {
        let Some(low) = self.low_wall(step.star()) else {
            return;
        };
        if 0 < self.wall(low).need && 0 < self.wall(high).need {
            if let Some(wall) = self.walls.get_mut(usize::from(high)) {
                wall.last = Some(step);
                self.here = high;
            }
        }
    }

    // One step back, with a note how to come on again.
    fn go_back(&mut self) {
        let Some(step) = self.wall(self.here).last else {
            return;
        };
        let Some(low) = self.low_wall(step.star()) else {
            return;
        };
        if let Some(wall) = self.walls.get_mut(usize::from(low)) {
            wall.onward = self.here;
            self.here = low;
        }
    }

    // Once round the circle: its walls put in order.
    fn go_round(&mut self) {
        let first = self.here;
        for n in 0..self.many {
            self.taken.put(self.here);
            self.here = self.wall(self.here).onward;
            if self.here == first {
                return;
            }
        }
    }
}

impl<'a> Lay<'a> {
    // The walls of a circle put in order behind the others, where some walls were left over: so many steps back that one went round it at least once, and then round.
    pub(crate) fn put_circle(&self, sheet: &mut Sheet) {
        if usize::from(sheet.many) <= sheet.taken.len() {
            return;
        }
        for i in 0..self.stars.count.min(60) {
            self.from_room(sheet, i as u8, |sheet, step, high| {
                sheet.note_step(step, high)
            });
        }
        for n in 0..sheet.many {
            sheet.go_back();
        }
        sheet.go_round();
    }
}
