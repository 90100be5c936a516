// The head of a wrapper: the tag of a job, and the length of its bytes in two bytes, high byte first.
ghost use Rattle.std.specs.Prelude.{◌≡◌};
ghost use Rattle.season.specs.Heads.{head_in, fits};

// The length of the job whose head some bytes begin with; none where they begin with no head of a wrapper.
pub fn head_of(head: &[u8]) -> Option<usize>
    ensures { (result ≡ head_in head.now) × fits result }
{
    let [tag, high, low, ..] = head else {
        return None;
    };
    if *tag != 9 {
        return None;
    }
    Some(256 * usize::from(*high) + usize::from(*low))
}
