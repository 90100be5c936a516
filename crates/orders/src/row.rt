// Numbers put one behind the other.
ghost use Rattle.std.specs.Prelude.{◌≤◌};

// So many numbers, N at most; one put behind them is left out.
#[derive(Clone, Copy)]
pub struct Row<const N: usize> {
    items: [u8; N],
    len: usize,
    ghost fits: { len ≤ N },
}

impl<const N: usize> Row<N> {
    // None yet.
    pub fn new() -> Self {
        Row {
            items: [0u8; N],
            len: 0,
        }
    }

    // How many there are.
    pub fn len(&self) -> usize
        ensures { result ≤ N }
    {
        self.len
    }

    // The number at a place, if there is one.
    pub fn at(&self, i: usize) -> Option<u8> {
        if self.len <= i {
            return None;
        }
        Some(self.items[i])
    }

    // A number put behind the others.
    pub fn put(&mut self, x: u8) {
        if self.len < N {
            self.items[self.len] = x;
            self.len += 1;
        }
    }
}
