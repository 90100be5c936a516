// A number and the byte behind it, and a refusal, put at a place of a lent buffer, as far as it reaches.
ghost use Rattle.std.specs.Prelude.{[], ◌∷◌, ◌++◌};
ghost use Rattle.floor.specs.Texts.{decimal, line, refused_word};
ghost use Rattle.letters.specs.Puts.{Puts};

use crate::{number, word};

// A number and the byte behind it; the place behind both is handed back.
pub fn put_then(out: &mut [u8], at: usize, n: usize, byte: u8) -> usize
    ensures { Puts out.old at (decimal n ++ (byte ∷ [])) out.new result }
{
    let next = number::put_decimal(out, at, n);
    word::put_byte(out, next, byte)
}

// A line of one number.
pub fn put_one(out: &mut [u8], at: usize, a: usize) -> usize
    ensures { Puts out.old at (line (a ∷ [])) out.new result }
{
    put_then(out, at, a, 10)
}

// A refusal: the word and its number, on a line of their own.
pub fn put_refusal(out: &mut [u8], at: usize, k: u8) -> usize
    ensures { Puts out.old at (refused_word ++ line (k ∷ [])) out.new result }
{
    let next = word::put_refused(out, at);
    put_one(out, next, usize::from(k))
}
