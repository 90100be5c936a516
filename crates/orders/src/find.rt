// The walls: sides joined by contacts, found from one side on to those it is joined to, and on from these.
use crate::Lay;
use crate::sheet::{Sheet, Side};

impl Sheet {
    // A side put on a wall, unless it was found before: from its parent by the contact at a place. The steps that lead to it, if it is a high one, count for the wall.
    fn reach(&mut self, wall: u8, side: usize, parent: u8, via: Option<u16>) {
        if 128 <= side {
            return;
        }
        if self.sides[side].wall.is_some() {
            return;
        }
        self.sides[side] = Side {
            wall: Some(wall),
            parent,
            via,
        };
        self.found.put(side as u8);
        if side % 2 == 1 {
            let steps = self.steps[side / 2];
            if let Some(wall) = self.walls.get_mut(usize::from(wall)) {
                wall.need = wall.need.saturating_add(steps);
            }
        }
    }
}

impl<'a> Lay<'a> {
    // From a room's side along the contacts from a place to an end.
    fn spread_part(&self, sheet: &mut Sheet, wall: u8, side: u8, first: usize, end: usize) {
        for k in first..end {
            let there = 2 * self.stars.to_at(k) + 1 - usize::from(side % 2);
            sheet.reach(wall, there, side, u16::try_from(k).ok());
        }
    }

    // From a room's side along its contacts of one kind: where they go over the star's end, those behind its start too.
    fn spread_room(&self, sheet: &mut Sheet, wall: u8, side: u8, i: usize, want: u8) {
        let first = self.part_start(i, want);
        let stop = self.part_end(i, want);
        if first < stop {
            self.spread_part(sheet, wall, side, first, stop);
        } else {
            self.spread_part(sheet, wall, side, first, self.stars.end_of(i));
            self.spread_part(sheet, wall, side, self.stars.start_of(i), stop);
        }
    }

    // From a frame side along its contacts. They stand in the rooms' stars, each alone in its part.
    fn spread_frame(&self, sheet: &mut Sheet, wall: u8, side: u8, want: u8) {
        for i in 0..self.stars.count.min(60) {
            let k = self.part_start(i, want);
            if self.stars.to_at(k) == usize::from(side / 2) {
                let there = 2 * (4 + i) + 1 - usize::from(side % 2);
                sheet.reach(wall, there, side, u16::try_from(k).ok());
            }
        }
    }

    // From a side along its contacts: from a room's high side along the far ones, from its low side along the near ones, and from a frame side the other way.
    fn spread(&self, sheet: &mut Sheet, wall: u8, side: u8) {
        if side < 8 {
            let want = if side % 2 == 0 { self.far } else { self.near };
            self.spread_frame(sheet, wall, side, want);
        } else {
            let want = if side % 2 == 0 { self.near } else { self.far };
            self.spread_room(sheet, wall, side, usize::from(side / 2 - 4), want);
        }
    }

    // From the sides found from number p on, and from those that are found so, until none is left.
    fn grow(&self, sheet: &mut Sheet, wall: u8, first: usize) {
        for p in first..128 {
            let Some(side) = sheet.found.at(p) else {
                return;
            };
            self.spread(sheet, wall, side);
        }
    }

    // The whole wall of a side; not where there are as many as the sheet has room for.
    fn new_wall(&self, sheet: &mut Sheet, side: u8) {
        let wall = sheet.many;
        if 64 <= wall {
            return;
        }
        sheet.many = wall + 1;
        let start = sheet.found.len();
        sheet.reach(wall, usize::from(side), side, None);
        self.grow(sheet, wall, start);
        let end = sheet.found.len();
        sheet.walls[usize::from(wall)].start = start as u8;
        sheet.walls[usize::from(wall)].end = end as u8;
    }

    // Every wall that has a room's side: first those of the two frame sides that rooms lie along, so that what is found from a frame side is found by way of it.
    pub(crate) fn find_walls(&self, sheet: &mut Sheet) {
        self.new_wall(sheet, 2 * (self.far % 4));
        self.new_wall(sheet, 2 * (self.near % 4) + 1);
        for side in 8..2 * (4 + self.stars.count.min(60)) {
            if sheet.side(side).wall.is_none() {
                self.new_wall(sheet, side as u8);
            }
        }
    }
}
