// What is printed of an answer, as text in a lent buffer.
#![tactic(auto)]

ghost use Rattle.std.specs.Prelude.{◌≡◌, ◌≤◌, length, replicate};
ghost use Rattle.std.proofs.lemmas.List.Edits.{sets};
ghost use Rattle.floor.specs.Plans.{refused};
ghost use Rattle.floor.specs.Texts.{too_long, plan_text, answer_text, listing, walls_listing, cuts_listing};
ghost use Rattle.floor.specs.Doors.{doors_listing};
ghost use Rattle.drawing.specs.Rects.{plan_lent};

use drawing::Layout;

mod line; // line.rt: numbers on one line
mod plan; // plan.rt: a line for each rectangle
mod doors; // doors.rt: a line for each contact of two rooms
mod wall_lines; // wall_lines.rt: a line for each wall
mod trees; // trees.rt: a line for each cut and each room at a leaf

// The number of a refusal, as text at the front; how many bytes that takes is handed back.
// It takes a number and no Refusal, since it is promised of any number.
pub fn list_refusal(k: u8, out: &mut [u8; 8192]) -> usize
    ensures { (result ≡ length (answer_text (refused k))) × (out.new ≡ sets out.old 0 (answer_text (refused k))) × (result ≤ 8192) }
{
    letters::line::put_refusal(out, 0, k)
}

// What is said of input that is too long, at the front; how many bytes that takes is handed back.
pub fn list_too_long(out: &mut [u8; 8192]) -> usize
    ensures { (result ≡ length too_long) × (out.new ≡ sets out.old 0 too_long) × (result ≤ 8192) }
{
    letters::word::put_too_long(out, 0)
}

// A plan, as text at the front; how many bytes that takes is handed back.
pub fn list_plan(plan: &Layout, out: &mut [u8; 8192]) -> usize
    ensures { (result ≡ length (plan_text (plan_lent plan.now)))
        × (out.new ≡ sets out.old 0 (plan_text (plan_lent plan.now))) × (result ≤ 8192) }
{
    let sheet = line::put_sheet(out, 0);
    let first = line::put_two(out, sheet, plan.width, plan.height);
    plan::put_rects(plan, out, first)
}

// The four listings below begin alike and stay four: one function with a closure for what is put would have to say in its contract, of any closure,
// which board and which buffer it is called with, since put_doors asks for at most 60 rooms, and that is longer than the lines that are the same.

// What the listing program prints for some input, at the front; how many bytes that takes is handed back.
pub fn list(input: &[u8], out: &mut [u8; 8192]) -> usize
    ensures { (result ≡ length (listing input.now)) × (out.new ≡ sets out.old 0 (listing input.now))
        × (result ≤ 8192) }
{
    if 8192 < input.len() {
        return list_too_long(out);
    }
    match board::plan_job(input) {
        Ok(board) => list_plan(&board.plan.lent(), out),
        Err(k) => list_refusal(k.number(), out),
    }
}

// A page for what the doors program prints, noughts at first: room for a line of each two of 60 rooms.
pub fn doors_page() -> [u8; 49152]
    ensures { result ≡ replicate 49152 0 }
{
    [0; 49152]
}

// What the doors program prints for some input, at the front; how many bytes that takes is handed back.
pub fn list_doors(input: &[u8], out: &mut [u8; 49152]) -> usize
    ensures { (result ≡ length (doors_listing input.now)) × (out.new ≡ sets out.old 0 (doors_listing input.now))
        × (result ≤ 49152) }
{
    if 8192 < input.len() {
        return letters::word::put_too_long(out, 0);
    }
    match board::plan_job(input) {
        Ok(board) => doors::put_doors(&board.plan.lent(), out, 0),
        Err(k) => letters::line::put_refusal(out, 0, k.number()),
    }
}

// What the joiner's program prints for some input, at the front; how many bytes that takes is handed back.
pub fn list_walls(input: &[u8], out: &mut [u8; 8192]) -> usize
    ensures { (result ≡ length (walls_listing input.now)) × (out.new ≡ sets out.old 0 (walls_listing input.now))
        × (result ≤ 8192) }
{
    if 8192 < input.len() {
        return list_too_long(out);
    }
    match board::plan_job(input) {
        Ok(board) => wall_lines::put_walls(&board.register, out, 0),
        Err(k) => list_refusal(k.number(), out),
    }
}

// What the contractor's program prints for some input, at the front; how many bytes that takes is handed back.
pub fn list_cuts(input: &[u8], out: &mut [u8; 8192]) -> usize
    ensures { (result ≡ length (cuts_listing input.now)) × (out.new ≡ sets out.old 0 (cuts_listing input.now))
        × (result ≤ 8192) }
{
    if 8192 < input.len() {
        return list_too_long(out);
    }
    match board::plan_job(input) {
        Ok(board) => trees::put_cuts(&board.plan.lent(), out, 0),
        Err(k) => list_refusal(k.number(), out),
    }
}
