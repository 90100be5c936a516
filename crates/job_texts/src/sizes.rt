// A least size, read: `at least`, a width, `by` and a height, and the end of the line.
ghost use Rattle.std.specs.Prelude.{◌≡◌};
ghost use Rattle.floor.specs.JobTexts.{size_at};
ghost use Rattle.job_texts.specs.Reads.{size_begins, size_words, measured};

use crate::{Measure, values, words};

// Whether a least size begins a text: `at` stands in front.
#[tactic(auto, using(crate::proofs::Pieces::size_begins_lem), unfolding(floor::specs::Quoted::plain))]
pub fn begins(text: &[u8]) -> bool
    ensures { result ≡ size_begins text.now }
{
    words::same(words::word(text), b"at")
}

// Whether `least`, some word, `by` and some word stand in front, and nothing behind them.
#[tactic(auto, using(crate::proofs::Pieces::no_least, crate::proofs::Pieces::no_by, crate::proofs::Pieces::by_end), unfolding(floor::specs::Quoted::plain))]
fn words_stand(text: &[u8]) -> bool
    ensures { result ≡ size_words text.now }
{
    if !words::same(words::word(text), b"least") {
        return false;
    }
    let third = words::next(words::next(text));
    if !words::same(words::word(third), b"by") {
        return false;
    }
    words::next(words::next(third)).is_empty()
}

// The least size that a text says, behind `at`, if it says one.
pub fn size_in(text: &[u8]) -> Option<Measure>
    ensures { measured result ≡ size_at text.now }
{
    if !words_stand(text) {
        return None;
    }
    let second = words::next(text);
    let wide = values::number_of(words::word(second))?;
    let fourth = words::next(words::next(second));
    let tall = values::number_of(words::word(fourth))?;
    Some(Measure { wide, tall })
}
