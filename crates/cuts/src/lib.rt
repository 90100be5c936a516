// Which floors can be cut straight: the tree of cuts of a plan, written; no recursion, a stack of rectangles that wait.
#![tactic(auto)]

ghost use Rattle.std.specs.Prelude.{◌≡◌, ◌+◌, ◌≤◌, length};
ghost use Rattle.floor.specs.Cuts.{is_tree};
ghost use Rattle.fields.specs.Writes.{replied};
ghost use Rattle.drawing.specs.Rects.{plan_from};
ghost use Rattle.cuts.specs.Runs.{tree_bytes, SlicedAs, cut_tree, writing};

use drawing::Rect;
use refusals::Refusal;

mod order; // order.rt: the walls of the register in order of beginning, end and number
mod rows; // rows.rt: the walls looked through in that order
mod links; // links.rt: the rooms linked by marks of their corners
mod look; // look.rt: what is to be done with a rectangle
mod run; // run.rt: the tree's bytes, rectangle by rectangle

// What is to be done with a rectangle: it is a room's, or it is cut.
#[derive(Clone, Copy, PartialEq, Eq)]
pub enum Task {
    Leaf(usize),
    Upright(u16),
    Level(u16),
}

// What a task puts, a field of so many bytes and its one or two numbers, and how many rectangles then wait, the low one on top.
// It is the same for every task, so that the loop has one path, and its proof one step.
#[derive(Clone, Copy)]
pub struct Act {
    pub bytes: usize,
    pub first: u16,
    pub second: Option<u16>,
    pub grown: usize,
    pub low: Rect,
    pub high: Rect,
}

// A plan as it is lent: its rectangles, how many rooms it has, and how wide and high the sheet is.
#[derive(Clone, Copy)]
struct Sheet<'a> {
    rects: &'a [u16],
    rooms: u8,
    width: u16,
    height: u16,
}

impl<'a> Sheet<'a> {
    // The bytes of the plan's tree, put to the front of a buffer for them; how many, or none where there is no tree.
    fn run(&self, buf: &mut [u8; 544]) -> Option<usize>
        ensures { SlicedAs result buf.new (cut_tree (plan_from self.now.width self.now.height (self.now.rooms + 4) self.now.rects.now)) × (length buf.new ≡ 544) }
    {
        let register = registers::register_of(self.rects, self.rooms, self.width, self.height);
        let many = usize::from(register.many);
        let ups = usize::from(register.uprights).min(many);
        let last = usize::from(self.rooms) + 4;
        let mut heads = [0; 127];
        let mut next = [0; 260];
        links::link_rooms(self.rects, last, &mut heads, &mut next);
        let order = order::order_of(&register.rows, ups, many);
        let walls = rows::Walls {
            rows: &register.rows,
            order: &order,
            ups,
            many,
        };
        let rooms = links::Rooms {
            rects: self.rects,
            last,
            heads: &heads,
            next: &next,
        };
        let b = Rect {
            vertex: 0,
            x1: 1,
            y1: 1,
            x2: self.width.saturating_sub(1),
            y2: self.height.saturating_sub(1),
        };
        run::run(&walls, &rooms, b, buf)
    }
}

// Whether the floor can be cut straight: one room, or a straight cut across with both parts so.
pub fn sliceable(rects: &[u16], rooms: u8, width: u16, height: u16) -> bool
    ensures { result ≡ is_tree (cut_tree (plan_from width height (rooms + 4) rects.now)) }
{
    let mut buf = [0; 544];
    let sheet = Sheet {
        rects,
        rooms,
        width,
        height,
    };
    sheet.run(&mut buf).is_some()
}

// The tree of cuts, written to the front of a lent buffer: 15 where there is none, then 14; nothing is touched where it is refused.
pub fn write_cuts(
    rects: &[u16],
    rooms: u8,
    width: u16,
    height: u16,
    out: &mut [u8],
) -> Result<usize, Refusal>
    ensures { (replied result ≡ (writing (tree_bytes (cut_tree (plan_from width height (rooms + 4) rects.now))) out.old).reply)
        × (out.new ≡ (writing (tree_bytes (cut_tree (plan_from width height (rooms + 4) rects.now))) out.old).buffer) }
{
    let mut buf = [0; 544];
    let sheet = Sheet {
        rects,
        rooms,
        width,
        height,
    };
    let Some(n) = sheet.run(&mut buf) else {
        return Err(Refusal::NoCuts);
    };
    if out.len() < n {
        return Err(Refusal::TooShort);
    }
    out[..n].copy_from_slice(&buf[..n]);
    Ok(n)
}
