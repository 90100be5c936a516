// Stars: the kinds, the tests of one star's bytes, and the stars of a job and its least sizes as they are held.
#![tactic(auto)]

ghost use Rattle.std.specs.Prelude.{◌≡◌};
ghost use Rattle.stars.specs.Held.{job_held, job_of};
ghost use Rattle.stars.specs.Sized.{sizes_lent, sizes_of};

pub mod kinds; // kinds.rt: each kind's opposite and each frame side's one kind
pub mod star; // star.rt: tests 4 and 5 of one star's bytes
pub mod held; // held.rt: the held stars read, and test 6 of them
pub mod least; // least.rt: the held sizes, and test 17 of them

use held::Held;
use least::Least;

// The stars of a job, one behind the other: how many there are, where each ends, and the neighbours and kinds.
#[derive(Clone, Copy)]
pub struct Stars {
    pub count: u8,
    pub ends: [u16; 60],
    pub nbr: [u16; 360],
    pub kind: [u8; 360],
}

// The least sizes of a job's rooms: of how many they are told, all of them or none, and a width and a height for each.
#[derive(Clone, Copy)]
pub struct Sizes {
    pub told: u8,
    pub list: [u8; 120],
}

impl Stars {
    // The stars, lent to workers.
    #[tactic(auto, unfolding(crate::specs::Held::job_of))]
    pub fn lent(&self) -> Held<'_>
        ensures same { (result.count ≡ self.now.count) × (result.ends.now ≡ self.now.ends) × (result.nbr.now ≡ self.now.nbr) × (result.kind.now ≡ self.now.kind) }
        ensures job { job_held result ≡ job_of self.now }
    {
        Held {
            count: usize::from(self.count),
            ends: &self.ends,
            nbr: &self.nbr,
            kind: &self.kind,
        }
    }
}

impl Sizes {
    // The sizes, lent to workers.
    #[tactic(auto, unfolding(crate::specs::Sized::sizes_of))]
    pub fn lent(&self) -> Least<'_>
        ensures same { (result.told ≡ self.now.told) × (result.list.now ≡ self.now.list) }
        ensures sizes { sizes_lent result ≡ sizes_of self.now }
    {
        Least {
            told: usize::from(self.told),
            list: &self.list,
        }
    }
}
