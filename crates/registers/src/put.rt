// The walls of a register, written as fields into a lent buffer.
ghost use Rattle.std.specs.Prelude.{◌≡◌, cond, ◌+◌, ◌*◌, ◌%◌, ◌≤◌, ◌<◌, ltb, length, get_or};
ghost use Rattle.std.proofs.lemmas.List.Edits.{sets};
ghost use Rattle.floor.specs.Fields.{write_field};
ghost use Rattle.floor.specs.Registers.{partition_bytes, write_register};
ghost use Rattle.drawing.specs.Rects.{in_bytes};
ghost use Rattle.registers.specs.Kept.{wall_at, walls_in};

// One byte of the number at a place, 0 past the end.
fn byte_at(rows: &[u16], k: usize) -> u8
    ensures { result ≡ get_or rows.now k 0 % 256 }
{
    (rows.get(k).copied().unwrap_or(0) % 256) as u8
}

// The direction of wall i: upright where it is one of the first.
pub fn direction(uprights: usize, i: usize) -> u8
    ensures { result ≡ cond (ltb i uprights) 0 1 }
{
    if i < uprights { 0 } else { 1 }
}

// The field of one wall.
fn put_wall(out: &mut [u8], rows: &[u16], uprights: usize, i: usize)
    requires { (i < 65536) × (8 * i + 8 ≤ length out.old) }
    ensures { out.new ≡ sets out.old (8 * i) (in_bytes (write_field 8 (partition_bytes (wall_at uprights rows.now i)))) }
{
    let at = 8 * i;
    let k = 4 * i;
    fields::put_head(out, at, 8, 5);
    out[at + 3] = direction(uprights, i);
    out[at + 4] = byte_at(rows, k);
    out[at + 5] = byte_at(rows, k + 1);
    out[at + 6] = byte_at(rows, k + 2);
    out[at + 7] = byte_at(rows, k + 3);
}

// The fields of so many walls.
pub fn put_walls(out: &mut [u8], rows: &[u16], uprights: usize, many: usize)
    requires { (many < 65536) × (8 * many ≤ length out.old) }
    ensures { out.new ≡ sets out.old 0 (in_bytes (write_register (walls_in uprights many 0 rows.now))) }
{
    for i in 0..many {
        put_wall(out, rows, uprights, i);
    }
}
