// The rows of a register, four numbers to a wall: which wall runs from side to side, found in an order by beginning, end and number.
ghost use Rattle.std.specs.Prelude.{◌≡◌, ◌-◌, ◌+◌, ◌*◌, ◌≤◌, ◌<◌, length, get_or};
ghost use Rattle.cuts.specs.Rows.{row_reaches, row_cut, Rising};
ghost use Rattle.cuts.specs.Orders.{row_key, Rise, Arranged, Passed, Over};

use crate::order::{key_of, row_key};

// The walls of a register: their rows, of which the first so many are upright, and an order of the upright ones, then of the level ones.
#[derive(Clone, Copy)]
pub struct Walls<'a> {
    pub rows: &'a [u16],
    pub order: &'a [u16],
    pub ups: usize,
    pub many: usize,
}

impl<'a> Walls<'a> {
    // A number of the rows; 0 past the end.
    fn number_at(&self, k: usize) -> u16
        ensures { result ≡ get_or self.now.rows.now k 0 }
    {
        self.rows.get(k).copied().unwrap_or(0)
    }

    // The place of the order from which on keys are over a bound.
    fn first_past(&self, i: usize, n: usize, bound: usize) -> usize
        requires { (i ≤ n) × (n ≤ length self.now.order.now) × Rise self.now.rows.now self.now.order.now i n }
        ensures { (i ≤ result) × (result ≤ n) × Passed self.now.rows.now self.now.order.now i result bound
            × Over self.now.rows.now self.now.order.now result n bound }
    {
        let rows = self.rows;
        i + self.order[i..n].partition_point(|k| row_key(rows, *k) <= bound)
    }

    // Whether the wall in a row lies between two numbers, and begins at one place and ends at another.
    #[tactic(auto, unfolding(crate::specs::Rows::row_reaches))]
    fn reaches_at(&self, k: usize, begin: u16, end: u16, low: u16, high: u16) -> bool
        requires { k < 65536 }
        ensures { (result ≡ row_reaches begin end low high self.now.rows.now k)
            × (get_or self.now.rows.now (4 * k) 0 < 65536) × (get_or self.now.rows.now (4 * k + 2) 0 < 65536) }
    {
        let number = self.number_at(4 * k);
        let begins = self.number_at(4 * k + 1);
        let ends = self.number_at(4 * k + 2);
        begin < number && number < end && begins == low && ends == high
    }

    // The number of the first wall, of those from row i to before row n, that does.
    pub fn cut(&self, i: usize, n: usize, begin: u16, end: u16, low: u16, high: u16) -> Option<u16>
        requires { (i ≤ n) × (n ≤ length self.now.order.now) × Rising self.now.rows.now i n × Arranged self.now.rows.now self.now.order.now i n }
        ensures { result ≡ row_cut begin end low high (n - i) i self.now.rows.now }
    {
        let at = self.first_past(i, n, key_of(low, high, begin));
        if n <= at {
            return None;
        }
        let k = usize::from(self.order[at]);
        if self.reaches_at(k, begin, end, low, high) {
            return Some(self.number_at(4 * k));
        }
        None
    }
}
