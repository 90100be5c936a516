// Numbers and words, put at a place of a lent buffer, as far as it reaches; and the page that programs print.
#![tactic(auto)]

ghost use Rattle.std.specs.Prelude.{◌≡◌, replicate};

pub mod number; // number.rt: a number in decimal
pub mod word; // word.rt: some bytes, and what is said of input that is refused or too long
pub mod line; // line.rt: a number and the byte behind it

// A page for what is printed, noughts at first.
pub fn page() -> [u8; 8192]
    ensures { result ≡ replicate 8192 0 }
{
    [0; 8192]
}
