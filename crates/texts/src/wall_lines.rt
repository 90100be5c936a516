// The walls of a register, a line each, put at a place of a lent buffer, as far as it reaches.
ghost use Rattle.std.specs.Prelude.{◌*◌, ◌≤◌, ◌<◌, length};
ghost use Rattle.floor.specs.Registers.{partition_bytes};
ghost use Rattle.floor.specs.Texts.{line, wall_lines};
ghost use Rattle.registers.specs.Kept.{wall_at, walls_in};
ghost use Rattle.letters.specs.Puts.{Puts};

use crate::line;
use registers::Register;

// The line of one wall.
fn put_wall(register: &Register, i: usize, out: &mut [u8], at: usize) -> usize
    ensures { Puts out.old at (line (partition_bytes (wall_at register.now.uprights register.now.rows i))) out.new result
        × (length (line (partition_bytes (wall_at register.now.uprights register.now.rows i))) ≤ 30) }
{
    let w = registers::held::wall_at(&register.rows, register.uprights, i);
    let direction = usize::from(w.direction);
    line::put_five(out, at, direction, w.number, w.begins, w.ends, w.sides)
}

// The lines of all its walls.
pub fn put_walls(register: &Register, out: &mut [u8], at: usize) -> usize
    ensures { Puts out.old at (wall_lines (walls_in register.now.uprights register.now.many 0 register.now.rows)) out.new result
        × (length (wall_lines (walls_in register.now.uprights register.now.many 0 register.now.rows)) ≤ 30 * register.now.many) }
{
    let many = usize::from(register.many);
    let mut next = at;
    for i in 0..many {
        next = put_wall(register, i, out, next);
    }
    next
}
