// The held sizes as they are lent, and test 17 of them. A number past the end of the list counts as 0.
ghost use Rattle.std.specs.Prelude.{◌≡◌, ◌+◌, ◌*◌, ◌≤◌, get_or};
ghost use Rattle.floor.specs.Lists.{all, any};
ghost use Rattle.floor.specs.Jobs.{size_of, size_ok, larger, test17};
ghost use Rattle.stars.specs.Sized.{size, sizes_lent, no_sizes};

use crate::Sizes;

// The least sizes as workers take them: of how many rooms they are told, and a width and a height for each.
#[derive(Clone, Copy)]
pub struct Least<'a> {
    pub told: usize,
    pub list: &'a [u8],
}

// No sizes told.
pub fn none_told() -> Sizes
    ensures { result ≡ no_sizes }
{
    Sizes {
        told: 0,
        list: [0u8; 120],
    }
}

// Whether a size is 1 to 15, either way.
#[tactic(auto, unfolding(floor::specs::Jobs::size_ok))]
fn size_ok(wide: u8, tall: u8) -> bool
    ensures { result ≡ size_ok (size wide tall) }
{
    1 <= wide && wide <= 15 && 1 <= tall && tall <= 15
}

// Whether a size is more than one cell, one way or the other.
#[tactic(auto, unfolding(floor::specs::Jobs::larger))]
pub fn is_larger(wide: u8, tall: u8) -> bool
    ensures { result ≡ larger (size wide tall) }
{
    wide != 1 || tall != 1
}

impl<'a> Least<'a> {
    // The width of size i, or, one further on, its height.
    fn number_at(&self, i: usize, on: usize) -> u8
        requires { on ≤ 1 }
        ensures { result ≡ get_or self.now.list.now (2 * i + on) 0 }
    {
        if self.list.len() <= i {
            return 0;
        }
        self.list.get(2 * i + on).copied().unwrap_or(0)
    }

    // The least width of a room, the i-th from the first; 1 where none is told.
    pub fn width_of(&self, i: usize) -> u8
        ensures { result ≡ (size_of (sizes_lent self.now) (4 + i)).wide }
    {
        if self.told <= i {
            return 1;
        }
        self.number_at(i, 0)
    }

    // The least height of a room, the i-th from the first; 1 where none is told.
    pub fn height_of(&self, i: usize) -> u8
        ensures { result ≡ (size_of (sizes_lent self.now) (4 + i)).tall }
    {
        if self.told <= i {
            return 1;
        }
        self.number_at(i, 1)
    }

    // Whether each of the sizes told is 1 to 15, either way.
    fn each_ok(&self) -> bool
        ensures { result ≡ all size_ok (sizes_lent self.now) }
    {
        for i in 0..self.told {
            if !size_ok(self.number_at(i, 0), self.number_at(i, 1)) {
                return false;
            }
        }
        true
    }

    // Whether some of the sizes told is more than one cell.
    pub fn some_larger(&self) -> bool
        ensures { result ≡ any larger (sizes_lent self.now) }
    {
        for i in 0..self.told {
            if is_larger(self.number_at(i, 0), self.number_at(i, 1)) {
                return true;
            }
        }
        false
    }

    // Test 17: no sizes are told, or all are 1 to 15 and not all 1.
    pub fn sizes_pass(&self) -> bool
        ensures { result ≡ test17 (sizes_lent self.now) }
    {
        if self.told == 0 {
            return true;
        }
        if !self.each_ok() {
            return false;
        }
        self.some_larger()
    }
}
