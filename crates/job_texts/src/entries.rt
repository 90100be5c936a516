// Stars that are held so far, with the place behind their entries: an entry more, and a star more.
ghost use Rattle.std.specs.Prelude.{◌≡◌, ◌<◌};
ghost use Rattle.job_texts.specs.Reads.{put_entry, close_at};

use stars::Stars;

// Held stars, and the place behind their entries.
#[derive(Clone, Copy)]
pub struct Held {
    pub stars: Stars,
    pub next: u16,
}

impl Held {
    // An entry more; how many stars there are, and their ends, stay.
    #[tactic(auto, unfolding(crate::specs::Reads::put_entry))]
    pub fn with_entry(mut self, to: u8, kind: u8) -> Held
        requires { self.next < 360 }
        ensures { result ≡ put_entry self to kind }
    {
        let place = usize::from(self.next);
        self.stars.nbr[place] = u16::from(to);
        self.stars.kind[place] = kind;
        self.next += 1;
        self
    }

    // One star more, whose entries end at the place.
    #[tactic(auto, unfolding(crate::specs::Reads::close_at))]
    pub fn closed(mut self) -> Held
        requires { self.stars.count < 60 }
        ensures { result ≡ close_at self }
    {
        let last = usize::from(self.stars.count);
        self.stars.ends[last] = self.next;
        self.stars.count += 1;
        self
    }
}
