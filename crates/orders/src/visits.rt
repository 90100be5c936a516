// The visits of walls: first the step that leads to a wall last, then, from the side that it enters on, the contacts that join the wall's other sides.
ghost use Rattle.std.specs.Prelude.{◌≤◌, ◌<◌, length};

use crate::sheet::{Sheet, Side};
use crate::{Lay, Visit};

// A visit written, and the place behind it; the same place at the end.
// The place is handed on as a number: the buffer is lent by the caller, and what is promised is of the whole of it.
fn put(visits: &mut [Visit], at: usize, visit: Visit) -> usize
    requires { at ≤ length visits.old }
    ensures { (at ≤ result) × (result ≤ length visits.old) }
{
    if visits.len() <= at {
        return at;
    }
    visits[at] = visit;
    at + 1
}

impl Sheet {
    // The contact visited by which a side was found, once.
    fn visit_join(&mut self, visits: &mut [Visit], side: usize, at: usize) -> usize
        requires { at ≤ length visits.old }
        ensures { (at ≤ result) × (result ≤ length visits.old) }
    {
        let Some(found) = self.sides.get_mut(side) else {
            return at;
        };
        let Some(place) = found.via else {
            return at;
        };
        found.via = None;
        let owner = if found.parent < 8 {
            side as u8
        } else {
            found.parent
        };
        if owner < 8 {
            return at;
        }
        put(visits, at, Visit::Entry(owner / 2 - 4, place))
    }

    // The contacts visited from a side back to the one that its wall was found from.
    fn visit_back(&mut self, visits: &mut [Visit], entered: usize, first: usize) -> usize
        requires { first ≤ length visits.old }
        ensures { (first ≤ result) × (result ≤ length visits.old) }
    {
        let mut at = first;
        let mut side = entered;
        for n in 0..128 {
            let Side { parent, via, .. } = self.side(side);
            if via.is_none() {
                return at;
            }
            at = self.visit_join(visits, side, at);
            side = usize::from(parent);
        }
        at
    }

    // The contacts visited by which the other sides of a wall were found.
    fn visit_on(&mut self, visits: &mut [Visit], start: u8, end: u8, first: usize) -> usize
        requires { first ≤ length visits.old }
        ensures { (first ≤ result) × (result ≤ length visits.old) }
    {
        let mut at = first;
        for p in start..end {
            let Some(side) = self.found.at(usize::from(p)) else {
                return at;
            };
            at = self.visit_join(visits, usize::from(side), at);
        }
        at
    }
}

impl<'a> Lay<'a> {
    // The visit of a step: by its contact, which is of the kind cross in one of two stars; or the room's own. At the frame there is none.
    fn visit_of(&self, step: Visit) -> Option<Visit> {
        let Visit::Entry(star, place) = step else {
            return Some(step);
        };
        let k = usize::from(place);
        if self.stars.kind_at(k) == self.cross {
            return Some(step);
        }
        let v = self.stars.to_at(k);
        if v < 4 {
            return None;
        }
        let end = self.stars.end_of(v - 4);
        let there = self
            .stars
            .place_in(self.stars.start_of(v - 4), end, 4 + usize::from(star));
        Some(Visit::Entry((v - 4) as u8, (there % 65536) as u16))
    }

    // The side that a step enters on.
    fn entered(&self, step: Visit) -> usize {
        match step {
            Visit::Own(star) => 2 * (4 + usize::from(star)) + 1,
            Visit::Entry(_, place) => 2 * self.stars.to_at(usize::from(place)) + 1,
        }
    }

    // A wall visited; not where nothing comes before it, since every number is 1 at first.
    fn visit_wall(&self, sheet: &mut Sheet, visits: &mut [Visit], wall: u8, first: usize) -> usize
        requires { first ≤ length visits.old }
        ensures { (first ≤ result) × (result ≤ length visits.old) }
    {
        let found = sheet.wall(wall);
        let Some(step) = found.last else {
            return first;
        };
        let at = match self.visit_of(step) {
            Some(visit) => put(visits, first, visit),
            None => first,
        };
        let back = sheet.visit_back(visits, self.entered(step), at);
        sheet.visit_on(visits, found.start, found.end, back)
    }

    // The walls visited that stand from one place to another in the order in which they are taken.
    pub(crate) fn visit_walls(
        &self,
        sheet: &mut Sheet,
        visits: &mut [Visit],
        from: usize,
        to: usize,
        first: usize,
    ) -> usize
        requires { first ≤ length visits.old }
        ensures { (first ≤ result) × (result ≤ length visits.old) }
    {
        let mut at = first;
        for p in from..to {
            let Some(wall) = sheet.taken.at(p) else {
                return at;
            };
            at = self.visit_wall(sheet, visits, wall, at);
        }
        at
    }
}
