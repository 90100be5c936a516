// What is to be done with a rectangle: its first cut, or its one room.
ghost use Rattle.std.specs.Prelude.{◌≡◌};
ghost use Rattle.floor.specs.Cuts.ByWalls.{leaf_of, wall_choice};
ghost use Rattle.drawing.specs.Rects.{rect_in};
ghost use Rattle.registers.specs.Kept.{walls_in};
ghost use Rattle.cuts.specs.Orders.{InOrder};
ghost use Rattle.cuts.specs.Tasks.{rooms_from, task_of};
ghost use Rattle.cuts.specs.Links.{Joined};

use crate::Task;
use crate::links::Rooms;
use crate::rows::Walls;
use drawing::Rect;

// The room that is b if there is one, else the leftmost upright wall across b if any, else the lowest level one; none where nothing can be done.
pub fn look(walls: &Walls, rooms: &Rooms, b: Rect) -> Option<Task>
    requires { InOrder walls.now × Joined rooms.now }
    ensures { result ≡ task_of (leaf_of (rect_in b) (rooms_from rooms.now.last 4 rooms.now.rects.now))
        (wall_choice (rect_in b) (walls_in walls.now.ups walls.now.many 0 walls.now.rows.now)) }
{
    if let Some(v) = rooms.room_by(b) {
        return Some(Task::Leaf(v));
    }
    if let Some(x) = walls.cut(0, walls.ups, b.x1, b.x2, b.y1, b.y2) {
        return Some(Task::Upright(x));
    }
    if let Some(y) = walls.cut(walls.ups, walls.many, b.y1, b.y2, b.x1, b.x2) {
        return Some(Task::Level(y));
    }
    None
}
