// What a word says: a kind, a number or a vertex.
ghost use Rattle.std.specs.Prelude.{◌≡◌, List, ◌∷◌, ℕ, map};
ghost use Rattle.floor.specs.JobTexts.{digits_on, number_of, place_of, kind_of_word, a_byte, vertex_of_word};
ghost use Rattle.job_texts.specs.Reads.{said, said_on};

use crate::words;

// A number with a digit more, where the byte is a digit and a byte still holds the number.
fn with_digit(n: u8, b: u8) -> Option<u8>
    ensures { (t : List ℕ) → said_on result t ≡ a_byte (digits_on n (b ∷ t)) }
{
    if !b.is_ascii_digit() {
        return None;
    }
    u8::try_from(10 * u16::from(n) + u16::from(b - b'0')).ok()
}

// The number that a word says, if it is one that a byte holds.
#[tactic(auto, using(crate::proofs::Said::no_number, crate::proofs::Said::number_first, crate::proofs::Said::number_next, crate::proofs::Said::number_stops, crate::proofs::Said::number_done))]
pub fn number_of(word: &[u8]) -> Option<u8>
    ensures { said result ≡ a_byte (number_of word.now) }
{
    if word.is_empty() {
        return None;
    }
    let mut n: u8 = 0;
    for b in word {
        n = with_digit(n, *b)?;
    }
    Some(n)
}

// The place at which a word stands among four, if it does.
fn place_of(word: &[u8], words: [&[u8]; 4]) -> Option<u8>
    ensures { said result ≡ place_of 0 word.now (map (λ w. w.now) words.entry) }
{
    let place = words.iter().position(|w| words::same(word, w))?;
    Some(place as u8)
}

// The kind that a word says, if it is a side.
pub fn kind_of_word(word: &[u8]) -> Option<u8>
    ensures { said result ≡ kind_of_word word.now }
{
    place_of(word, [b"above", b"left", b"below", b"right"])
}

// The vertex that a word says, if it does: a frame side by its letter, or a room by its number.
pub fn vertex_of_word(word: &[u8]) -> Option<u8>
    ensures { said result ≡ vertex_of_word word.now }
{
    place_of(word, [b"N", b"W", b"S", b"E"]).or(number_of(word))
}
