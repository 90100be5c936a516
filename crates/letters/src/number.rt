// A number in decimal, put at a place of a lent buffer, as far as it reaches.
ghost use Rattle.std.specs.Prelude.{◌≡◌, ◌≤◌, drop};
ghost use Rattle.floor.specs.Texts.{decimal};
ghost use Rattle.letters.specs.Puts.{Puts};

use crate::word;

// The digits of a number at the end of a page, from the last to the first; where they start is handed back.
fn put_digits(page: &mut [u8; 20], n: usize) -> usize
    ensures { (drop result page.new ≡ decimal n) × (result ≤ 20) }
{
    let mut rest = n;
    for start in (0..20).rev() {
        page[start] = (48 + rest % 10) as u8;
        rest /= 10;
        if rest == 0 {
            return start;
        }
    }
    0
}

// A number in decimal, put; the place behind it is handed back.
pub fn put_decimal(out: &mut [u8], at: usize, n: usize) -> usize
    ensures { Puts out.old at (decimal n) out.new result }
{
    let mut digits = [0; 20];
    let start = put_digits(&mut digits, n);
    word::put_word(out, at, &digits[start..])
}
