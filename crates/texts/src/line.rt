// The word in front of a sheet, and numbers on one line, put at a place of a lent buffer, as far as it reaches.
ghost use Rattle.std.specs.Prelude.{[], ◌∷◌, ◌≤◌, ◌<◌, length};
ghost use Rattle.floor.specs.Texts.{line, sheet_word};
ghost use Rattle.letters.specs.Puts.{Puts};

// The word in front of a sheet.
#[tactic(auto, unfolding(floor::specs::Texts::sheet_word, floor::specs::Quoted::plain))]
pub fn put_sheet(out: &mut [u8], at: usize) -> usize
    ensures { Puts out.old at sheet_word out.new result }
{
    letters::word::put_word(out, at, b"sheet ")
}

// Lines of two, five and six numbers: each is numbers put one by one and the shorter line behind them, which needs no loop and says which type each has.

// A line of two numbers.
pub fn put_two(out: &mut [u8], at: usize, a: u16, b: u16) -> usize
    ensures { Puts out.old at (line (a ∷ b ∷ [])) out.new result × (length (line (a ∷ b ∷ [])) ≤ 12) }
{
    let next = letters::line::put_then(out, at, usize::from(a), 32);
    letters::line::put_one(out, next, usize::from(b))
}

// A line of five numbers: a vertex and the ends of its rectangle, or the numbers of a wall.
pub fn put_five(out: &mut [u8], at: usize, v: usize, x1: u16, y1: u16, x2: u16, y2: u16) -> usize
    ensures { Puts out.old at (line (v ∷ x1 ∷ y1 ∷ x2 ∷ y2 ∷ [])) out.new result
        × ((v < 100000) → length (line (v ∷ x1 ∷ y1 ∷ x2 ∷ y2 ∷ [])) ≤ 30) }
{
    let second = letters::line::put_then(out, at, v, 32);
    let third = letters::line::put_then(out, second, usize::from(x1), 32);
    let fourth = letters::line::put_then(out, third, usize::from(y1), 32);
    put_two(out, fourth, x2, y2)
}

// A line of six numbers: two rooms, a side, from where and to where a stretch of wall runs, and its length.
pub fn put_six(
    out: &mut [u8],
    at: usize,
    u: usize,
    v: usize,
    side: u8,
    start: u16,
    stop: u16,
    long: u16,
) -> usize
    ensures { Puts out.old at (line (u ∷ v ∷ side ∷ start ∷ stop ∷ long ∷ [])) out.new result
        × ((u < 100) → (v < 100) → (side < 10) → length (line (u ∷ v ∷ side ∷ start ∷ stop ∷ long ∷ [])) ≤ 26) }
{
    let second = letters::line::put_then(out, at, u, 32);
    put_five(out, second, v, u16::from(side), start, stop, long)
}
