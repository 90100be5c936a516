// The tree's bytes, rectangle by rectangle, from a stack of those that wait.
ghost use Rattle.std.specs.Prelude.{◌≡◌, ◌+◌, ◌≤◌, length};
ghost use Rattle.std.proofs.lemmas.List.Edits.{sets};
ghost use Rattle.drawing.specs.Rects.{rect_in};
ghost use Rattle.floor.specs.Cuts.ByWalls.{tree_by, capped};
ghost use Rattle.registers.specs.Kept.{walls_in};
ghost use Rattle.cuts.specs.Orders.{InOrder};
ghost use Rattle.cuts.specs.Tasks.{rooms_from};
ghost use Rattle.cuts.specs.Links.{Joined};
ghost use Rattle.cuts.specs.Runs.{act_of, act_bytes, SlicedAs};

use crate::links::Rooms;
use crate::rows::Walls;
use crate::{Act, Task};
use drawing::Rect;

// What is put and what waits next, for a task.
#[tactic(auto, unfolding(crate::specs::Runs::act_of))]
fn act_of(task: Task, b: Rect) -> Act
    ensures { result ≡ act_of task b }
{
    match task {
        Task::Leaf(v) => Act {
            bytes: 4,
            first: (v % 256) as u16,
            second: None,
            grown: 0,
            low: b,
            high: b,
        },
        Task::Upright(c) => Act {
            bytes: 5,
            first: 0,
            second: Some(c),
            grown: 2,
            low: Rect { x2: c, ..b },
            high: Rect { x1: c, ..b },
        },
        Task::Level(c) => Act {
            bytes: 5,
            first: 1,
            second: Some(c),
            grown: 2,
            low: Rect { y2: c, ..b },
            high: Rect { y1: c, ..b },
        },
    }
}

// The field of a leaf, which has one number, or of a cut, which has two.
fn put_act(out: &mut [u8], at: usize, first: u16, second: Option<u16>)
    requires { at + 5 ≤ length out.old }
    ensures { out.new ≡ sets out.old at (act_bytes first second) }
{
    match second {
        None => {
            fields::put_head(out, at, 6, 1);
            out[at + 3] = (first % 256) as u8;
        }
        Some(c) => {
            fields::put_head(out, at, 5, 2);
            out[at + 3] = (first % 256) as u8;
            out[at + 4] = (c % 256) as u8;
        }
    }
}

// The bytes of the tree of b by its walls, put to the front of a buffer for the tree of sixty rooms; how many, or none where there is no tree.
pub fn run(walls: &Walls, rooms: &Rooms, b: Rect, buf: &mut [u8]) -> Option<usize>
    requires { InOrder walls.now × Joined rooms.now × (length buf.old ≡ 544) }
    ensures { SlicedAs result buf.new (capped 60 (tree_by (walls_in walls.now.ups walls.now.many 0 walls.now.rows.now)
        (rooms_from rooms.now.last 4 rooms.now.rects.now) (rect_in b))) }
{
    // no heap: so many of the stack's rectangles wait
    let mut stack = [b; 136];
    let mut waiting: usize = 1;
    let mut at: usize = 0;
    // As long as rectangles wait: each may bring two more.
    while 0 < waiting {
        if 535 < at + 4 * waiting {
            return None;
        }
        let top = waiting - 1;
        let here = stack[top];
        let task = crate::look::look(walls, rooms, here)?;
        let act = act_of(task, here);
        put_act(buf, at, act.first, act.second);
        stack[top] = act.high;
        stack[top + 1] = act.low;
        waiting = top + act.grown;
        at += act.bytes;
    }
    if 535 < at {
        return None;
    }
    Some(at)
}
