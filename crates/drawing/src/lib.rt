// Plans: rectangles by wall numbers, the drawing test, tests 7, 18 and 9 of held stars with their least sizes, and a plan's bytes.
#![tactic(auto)]

ghost use Rattle.std.specs.Prelude.{◌≡◌, ◌&&◌, ◌+◌, ◌<◌, leb, get_or};
ghost use Rattle.floor.specs.Jobs.{sized_job};
ghost use Rattle.floor.specs.Lists.{all, sum};
ghost use Rattle.floor.specs.Plans.{nowhere, drawable, write_plan};
ghost use Rattle.fields.specs.Writes.{replied, writing};
ghost use Rattle.stars.specs.Held.{job_held};
ghost use Rattle.stars.specs.Sized.{sizes_lent};
ghost use Rattle.drawing.specs.Rects.{rect_in, rect_at, rects_in, rects_lent, plan_from, plan_lent, plan_in, in_bytes, no_plan};
ghost use Rattle.drawing.specs.Tests.{inside_sheet};
ghost use Rattle.drawing.specs.Drawn.{numbered_any, drawn_any, Draws};

use refusals::Refusal;
use stars::held::Held;
use stars::least::Least;
use walls::Sheet;

pub mod rects; // rects.rt: one rectangle and two: inside, apart, touch, corner, area
mod sheet; // sheet.rt: every rectangle inside, and the areas added up
mod pairs; // pairs.rt: what is asked of any two rectangles
mod order; // order.rt: neighbours of one kind stand in order
mod place; // place.rt: the rectangles by wall numbers
mod put; // put.rt: a plan, written

// A vertex and the cells it spans.
#[derive(Clone, Copy)]
pub struct Rect {
    pub vertex: usize,
    pub x1: u16,
    pub y1: u16,
    pub x2: u16,
    pub y2: u16,
}

// How one rectangle touches another: no wall between them, or the side on which the second stands, seen from the first, and the length of wall they share.
// An enum of its own in place of an Option: document 02 asks for it by this name, to be taken apart with let .. else.
#[derive(Clone, Copy)]
pub enum Touch {
    Clear,
    Wall(u8, u16),
}

// A sheet and its rectangles, in vertex order: x1, y1, x2, y2 of each.
#[derive(Clone, Copy)]
pub struct Plan {
    pub rooms: u8,
    pub width: u16,
    pub height: u16,
    pub rects: [u16; 256],
}

// A plan as workers take it: how many rooms, how wide and high the sheet is, and the rectangles, four numbers to each.
#[derive(Clone, Copy)]
pub struct Layout<'a> {
    pub rooms: u8,
    pub width: u16,
    pub height: u16,
    pub rects: &'a [u16],
}

// No plan.
#[tactic(auto, unfolding(crate::specs::Rects::no_plan))]
pub fn no_plan() -> Plan
    ensures { result ≡ no_plan }
{
    Plan {
        rooms: 0,
        width: 0,
        height: 0,
        rects: [0; 256],
    }
}

impl Plan {
    // The plan, lent.
    #[tactic(auto, unfolding(crate::specs::Rects::plan_in))]
    pub fn lent(&self) -> Layout<'_>
        ensures same { (result.rooms ≡ self.now.rooms) × (result.width ≡ self.now.width) × (result.height ≡ self.now.height) × (result.rects.now ≡ self.now.rects) }
        ensures plan { plan_lent result ≡ plan_in self.now }
    {
        Layout {
            rooms: self.rooms,
            width: self.width,
            height: self.height,
            rects: &self.rects,
        }
    }
}

impl<'a> Layout<'a> {
    // How many rectangles there are: the four sides of the frame, and the rooms.
    pub fn many(&self) -> usize
        ensures { (result ≡ self.now.rooms + 4) × (result < 260) }
    {
        usize::from(self.rooms) + 4
    }

    // The number at a place, 0 past the end.
    fn number_at(&self, k: usize) -> u16
        ensures { result ≡ get_or self.now.rects.now k 0 }
    {
        self.rects.get(k).copied().unwrap_or(0)
    }

    // The rectangle of a vertex, whose numbers stand four to a rectangle, whether there is such a vertex or not.
    #[tactic(auto, unfolding(crate::specs::Rects::rect_in, crate::specs::Rects::rect_at))]
    fn rect_at(&self, v: usize) -> Rect
        requires { v < 65536 }
        ensures { rect_in result ≡ rect_at self.now.rects.now v }
    {
        Rect {
            vertex: v,
            x1: self.number_at(4 * v),
            y1: self.number_at(4 * v + 1),
            x2: self.number_at(4 * v + 2),
            y2: self.number_at(4 * v + 3),
        }
    }

    // The rectangle of a vertex; none for a number that is no vertex.
    #[tactic(auto, using(crate::proofs::Asking::rect_none, crate::proofs::Asking::rect_here))]
    pub fn rectangle(&self, v: usize) -> Rect
        ensures { rect_in result ≡ get_or (rects_lent self.now) v nowhere }
    {
        if self.many() <= v {
            return Rect {
                vertex: 0,
                x1: 0,
                y1: 0,
                x2: 0,
                y2: 0,
            };
        }
        self.rect_at(v)
    }

    // The drawing test: each rectangle, the areas, any two rectangles in one pass, and the order of each star.
    #[tactic(auto, using(crate::proofs::Asking::drawable_is))]
    fn drawable(&self, stars: &Held) -> bool
        ensures { result ≡ drawable (job_held stars.now) (plan_lent self.now) }
    {
        sheet::all_inside(self)
            && sheet::areas_fill(self)
            && pairs::all_pairs(self, stars)
            && order::all_ordered(self, stars)
    }

    // The plan, written to the front of a lent buffer; nothing behind it is touched, and nothing at all where it is too short.
    pub fn write(&self, out: &mut [u8]) -> Result<usize, Refusal>
        ensures { (replied result ≡ (writing (in_bytes (write_plan (plan_lent self.now))) out.old).reply)
            × (out.new ≡ (writing (in_bytes (write_plan (plan_lent self.now))) out.old).buffer) }
    {
        let length = 5 + 8 * self.many();
        if out.len() < length {
            return Err(Refusal::TooShort);
        }
        fields::put_head(out, 0, 3, 2);
        out[3] = put::low_byte(self.width);
        out[4] = put::low_byte(self.height);
        put::put_rects(out, self);
        Ok(length)
    }
}

// Whether a sheet is no wider and no higher than 250.
fn sheet_fits(sheet: Sheet) -> bool
    ensures { result ≡ (leb sheet.width 250 && leb sheet.height 250) }
{
    sheet.width <= 250 && sheet.height <= 250
}

// Held stars numbered, with their least sizes: tests 7 and 18, and the plan by their wall numbers.
pub fn plan_stars(stars: &Held, sizes: &Least) -> Result<Plan, Refusal>
    ensures { Draws result (sized_job (job_held stars.now) (sizes_lent sizes.now))
        (numbered_any (sized_job (job_held stars.now) (sizes_lent sizes.now))) }
{
    let Some(walls) = walls::walls_of(stars, sizes) else {
        return Err(Refusal::Circle);
    };
    let sheet = walls::sheet_at(&walls.uprights.0, &walls.levels.0);
    if !sheet_fits(sheet) {
        return Err(Refusal::TooLarge);
    }
    Ok(place::plan_of(&walls.uprights.0, &walls.levels.0, sheet, stars.count))
}

// Held stars numbered and drawn, with their least sizes: tests 7, 18 and 9.
pub fn draw(stars: &Held, sizes: &Least) -> Result<Plan, Refusal>
    ensures { Draws result (sized_job (job_held stars.now) (sizes_lent sizes.now))
        (drawn_any (sized_job (job_held stars.now) (sizes_lent sizes.now))) }
{
    let plan = plan_stars(stars, sizes)?;
    if !plan.lent().drawable(stars) {
        return Err(Refusal::NoFloor);
    }
    Ok(plan)
}
