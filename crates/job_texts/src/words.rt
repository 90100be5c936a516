// Words in a text, with blanks between: where each starts and ends.
ghost use Rattle.std.specs.Prelude.{◌≡◌};
ghost use Rattle.floor.specs.Lists.{same_numbers};
ghost use Rattle.floor.specs.JobTexts.{blank, skip, word, next, uncommented};

// Whether a byte is a blank.
#[tactic(auto, unfolding(floor::specs::JobTexts::blank))]
fn is_blank(b: u8) -> bool
    ensures { result ≡ blank b }
{
    b == b' ' || b == b'\t' || b == b'\r'
}

// Whether two words are the same.
pub fn same(a: &[u8], b: &[u8]) -> bool
    ensures { result ≡ same_numbers a.now b.now }
{
    a == b
}

// A text without the blanks in front.
pub fn skip(text: &[u8]) -> &[u8]
    ensures { result.now ≡ skip text.now }
{
    let start = text
        .iter()
        .position(|b| !is_blank(*b))
        .unwrap_or(text.len());
    &text[start..]
}

// The word in front of a text.
pub fn word(text: &[u8]) -> &[u8]
    ensures { result.now ≡ word text.now }
{
    let end = text
        .iter()
        .position(|b| !b.is_ascii_alphanumeric())
        .unwrap_or(text.len());
    &text[..end]
}

// The next thing behind the word in front of a text.
#[tactic(auto, using(crate::proofs::Spaced::word_within, crate::proofs::Spaced::next_found))]
pub fn next(text: &[u8]) -> &[u8]
    ensures { result.now ≡ next text.now }
{
    skip(&text[word(text).len()..])
}

// A line without its comment and the blanks in front.
pub fn bare(line: &[u8]) -> &[u8]
    ensures { result.now ≡ skip (uncommented line.now) }
{
    let end = line.iter().position(|b| *b == b'#').unwrap_or(line.len());
    skip(&line[..end])
}
