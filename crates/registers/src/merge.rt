// Sides in order merged to walls, each written to its row.
ghost use Rattle.std.specs.Prelude.{◌≡◌, ◌&&◌, List, ◌∷◌, ℕ, ◌+◌, ◌*◌, ◌≤◌, ◌<◌, eqb, leb, length};
ghost use Rattle.floor.specs.Registers.{Stretch};
ghost use Rattle.floor.specs.Registers.Merge.{merge_from, merged};
ghost use Rattle.registers.specs.Chains.{side_of, chain, Falls, Starts, read_walls};
ghost use Rattle.registers.specs.Kept.{row, written};
ghost use Rattle.registers.specs.Merging.{wall_of};

use crate::chains::{Side, side_at};

// A wall that is begun, and how many stand before it.
#[derive(Clone, Copy)]
struct Begun {
    pub at: usize,
    pub line: u16,
    pub begins: u16,
    pub ends: u16,
    pub sides: u16,
}

// A wall's four numbers put in its row; nothing past the rows.
fn put_row(rows: &mut [u16], w: Begun)
    requires { (length rows.old ≡ 256) × (w.at < 1000000000) }
    ensures { rows.new ≡ row rows.old w.at w.line w.begins w.ends w.sides }
{
    let k = 4 * w.at;
    if rows.len() <= k {
        return;
    }
    rows[k] = w.line;
    rows[k + 1] = w.begins;
    rows[k + 2] = w.ends;
    rows[k + 3] = w.sides;
}

// Whether a wall goes on with a side: it lies on its line, and begins no later than where the wall ends.
fn goes_on(w: Begun, s: Side) -> bool
    ensures { result ≡ (eqb s.line w.line && leb s.begins w.ends) }
{
    s.line == w.line && s.begins <= w.ends
}

// A side taken to the wall that is begun, or that wall written and a new one begun.
fn add_side(rows: &mut [u16], w: Begun, s: Side) -> Begun
    requires { (length rows.old ≡ 256) × (w.at < 1000000000) × (w.sides < 65535) }
    ensures { ((d : ℕ) (l : List Stretch) → (written rows.new result.at (merge_from d (wall_of d result) l)
        ≡ written rows.old w.at (merge_from d (wall_of d w) (side_of s ∷ l)))
        × (result.at + length (merge_from d (wall_of d result) l) ≡ w.at + length (merge_from d (wall_of d w) (side_of s ∷ l))))
        × (result.at ≤ w.at + 1) × (result.sides ≤ w.sides + 1) }
{
    if goes_on(w, s) {
        return Begun {
            at: w.at,
            line: w.line,
            begins: w.begins,
            ends: w.ends.max(s.ends),
            sides: w.sides + 1,
        };
    }
    put_row(rows, w);
    Begun {
        at: w.at + 1,
        line: s.line,
        begins: s.begins,
        ends: s.ends,
        sides: 1,
    }
}

// The walls of a chain whose first side is taken, each written to its row; the row behind them is told.
fn merge_rest<'a>(cells: &'a [u16], first: usize, rows: &mut [u16], begun: Begun) -> usize
    requires { Falls cells.now × (4 * first ≤ length cells.now) × (length rows.old ≡ 256)
        × (begun.at + first < 1000000000) × (begun.sides + first < 65536) }
    ensures { ((d : ℕ) → (rows.new ≡ written rows.old begun.at (merge_from d (wall_of d begun) (chain cells.now first)))
        × (result ≡ begun.at + length (merge_from d (wall_of d begun) (chain cells.now first)))) × (result ≤ begun.at + first + 1) }
{
    let mut w = begun;
    let mut h = first;
    // Along a chain from cell to cell: where it ends only its last cell says.
    while 0 < h {
        w = add_side(rows, w, side_at(cells, h - 1));
        h = usize::from(cells[4 * (h - 1)]);
    }
    put_row(rows, w);
    w.at + 1
}

// The walls of a chain, each written to its row; the row behind them is told.
fn merge_chain<'a>(cells: &'a [u16], first: usize, rows: &mut [u16], at: usize) -> usize
    requires { Falls cells.now × (4 * first ≤ length cells.now) × (first < 65536) × (length rows.old ≡ 256) × (at + first < 1000000000) }
    ensures { ((d : ℕ) → (rows.new ≡ written rows.old at (merged d (chain cells.now first)))
        × (result ≡ at + length (merged d (chain cells.now first)))) × (result ≤ at + first) }
{
    if first == 0 {
        return at;
    }
    let s = side_at(cells, first - 1);
    let begun = Begun {
        at,
        line: s.line,
        begins: s.begins,
        ends: s.ends,
        sides: 1,
    };
    merge_rest(cells, usize::from(cells[4 * (first - 1)]), rows, begun)
}

// The walls of all chains, each written to its row, from a row on; the row behind them is told.
pub fn merge_lines<'a>(heads: &'a [u16], cells: &'a [u16], rows: &mut [u16], at: usize) -> usize
    requires { Falls cells.now × Starts heads.now cells.now × (length heads.now ≤ 1024) × (length rows.old ≡ 256) × (at < 100000000) }
    ensures { ((d : ℕ) → (rows.new ≡ written rows.old at (read_walls d heads.now cells.now (length heads.now)))
        × (result ≡ at + length (read_walls d heads.now cells.now (length heads.now)))) × (result ≤ at + 65536 * length heads.now) }
{
    let mut n = at;
    for head in heads {
        n = merge_chain(cells, usize::from(*head), rows, n);
    }
    n
}
