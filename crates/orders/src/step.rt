// The steps from a wall to the walls behind it: from each room's low side to its own high side, and to that of each room it touches across.
// A step is told as the visit that its contact has in the room's own star, or as the room's own.
ghost use Rattle.std.specs.Prelude.{◌≡◌};

use crate::sheet::Sheet;
use crate::{Lay, Visit};
use stars::held::place_after;

impl Sheet {
    // A step taken: the wall that it leads to waits for one step less. Walls are taken as they come, so that the step it waits for last comes from the largest number before it.
    fn take_step(&mut self, step: Visit, high: u8) {
        let Some(wall) = self.walls.get_mut(usize::from(high)) else {
            return;
        };
        if wall.need == 0 {
            return;
        }
        wall.need -= 1;
        if wall.need == 0 {
            wall.last = Some(step);
            self.taken.put(high);
        }
    }

    // The walls that nothing comes before put in order.
    fn take_firsts(&mut self) {
        for wall in 0..self.many {
            if self.wall(wall).need == 0 {
                self.taken.put(wall);
            }
        }
    }
}

impl<'a> Lay<'a> {
    // A room's own step, and what is to be done with it.
    fn own_step<F: Fn(&mut Sheet, Visit, u8)>(&self, sheet: &mut Sheet, star: u8, deed: F)
        requires { F.IsAlwaysCallable deed }
    {
        if let Some(high) = sheet.side(2 * (4 + usize::from(star)) + 1).wall {
            deed(sheet, Visit::Own(star), high);
        }
    }

    // The step of the contact at a place: to the room there, and at the frame the room's own once more.
    fn step_at<F: Fn(&mut Sheet, Visit, u8)>(&self, sheet: &mut Sheet, star: u8, k: usize, deed: F)
        requires { F.IsAlwaysCallable deed }
    {
        let v = self.stars.to_at(k);
        if v < 4 {
            self.own_step(sheet, star, deed);
        } else if let Some(high) = sheet.side(2 * v + 1).wall {
            deed(sheet, Visit::Entry(star, (k % 65536) as u16), high);
        }
    }

    // The steps of a room's contacts of one kind, once round its star from where they start.
    fn steps_of<F: Fn(&mut Sheet, Visit, u8)>(&self, sheet: &mut Sheet, star: u8, want: u8, deed: F)
        requires { F.IsAlwaysCallable deed }
    {
        let i = usize::from(star);
        let from = self.stars.start_of(i);
        let end = self.stars.end_of(i);
        let stop = self.part_end(i, want);
        let mut k = self.part_start(i, want);
        for n in from..end {
            self.step_at(sheet, star, k, &deed);
            k = place_after(from, end, k);
            if k == stop {
                return;
            }
        }
    }

    // The steps from a room's low side, the room given by the number of its star: its own, and across by contacts of both kinds.
    pub(crate) fn from_room<F: Fn(&mut Sheet, Visit, u8)>(
        &self,
        sheet: &mut Sheet,
        star: u8,
        deed: F,
    )
        requires { F.IsAlwaysCallable deed }
    {
        self.own_step(sheet, star, &deed);
        self.steps_of(sheet, star, self.cross, &deed);
        self.steps_of(sheet, star, self.cross % 4 + 2, &deed);
    }

    // The steps from a wall taken: those from each room's low side on it.
    fn take_wall(&self, sheet: &mut Sheet, wall: u8) {
        let sides = sheet.wall(wall);
        for p in sides.start..sides.end {
            let Some(side) = sheet.found.at(usize::from(p)) else {
                return;
            };
            if side % 2 == 0 && 8 <= side {
                self.from_room(sheet, side / 2 - 4, |sheet, step, high| {
                    sheet.take_step(step, high)
                });
            }
        }
    }

    // The walls taken, each once every wall before it is taken, as far as that goes.
    pub(crate) fn take_walls(&self, sheet: &mut Sheet) {
        sheet.take_firsts();
        for p in 0..64 {
            let Some(wall) = sheet.taken.at(p) else {
                return;
            };
            self.take_wall(sheet, wall);
        }
    }
}
