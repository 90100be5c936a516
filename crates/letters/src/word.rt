// Words, put at a place of a lent buffer, as far as it reaches.
ghost use Rattle.std.specs.Prelude.{◌≡◌, [], ◌∷◌, ◌-◌, min};
ghost use Rattle.floor.specs.Texts.{refused_word, too_long};
ghost use Rattle.letters.specs.Puts.{Puts};

// For how many of k bytes there is room from a place on.
fn room_for(k: usize, length: usize, at: usize) -> usize
    ensures { result ≡ min k (length - at) }
{
    k.min(length.saturating_sub(at))
}

// Some bytes, put; the place behind them is handed back.
pub fn put_word(out: &mut [u8], at: usize, word: &[u8]) -> usize
    ensures { Puts out.old at word.now out.new result }
{
    let start = at.min(out.len());
    let many = room_for(word.len(), out.len(), at);
    out[start..start + many].copy_from_slice(&word[..many]);
    at + many
}

// One byte, put; the place behind it is handed back.
pub fn put_byte(out: &mut [u8], at: usize, byte: u8) -> usize
    ensures { Puts out.old at (byte ∷ []) out.new result }
{
    if at < out.len() {
        out[at] = byte;
        return at + 1;
    }
    at
}

// The word in front of the number of a refusal.
pub fn put_refused(out: &mut [u8], at: usize) -> usize
    ensures { Puts out.old at refused_word out.new result }
{
    put_word(out, at, b"refused ")
}

// What is said of input that is too long.
pub fn put_too_long(out: &mut [u8], at: usize) -> usize
    ensures { Puts out.old at too_long out.new result }
{
    put_word(out, at, b"input too long\n")
}
