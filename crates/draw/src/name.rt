// The name of a file, written so that it is safe inside a picture whatever its bytes are: characters of UTF-8 that XML allows as they are, but for
// the three that mean something to it, and any other byte as a question mark.
ghost use Rattle.std.specs.Prelude.{◌≤◌, ◌<◌, length, IfSome};

use std::io;

// How many bytes the character at the front has; none where there is none, or it is not to be shown. No character is written longer than it has to be, none is
// half of another, and two of three bytes are not allowed in XML.
fn character(s: &[u8]) -> Option<usize>
    ensures { IfSome result (λ n. (0 < n) × (n ≤ length s.now)) }
{
    match s {
        [0x20..=0x7e, ..] => Some(1),
        [0xc2..=0xdf, 0x80..=0xbf, ..] => Some(2),
        [0xe0, 0xa0..=0xbf, 0x80..=0xbf, ..] => Some(3),
        [0xed, 0x80..=0x9f, 0x80..=0xbf, ..] => Some(3),
        [0xef, 0xbf, 0xbe..=0xbf, ..] => None,
        [0xe1..=0xec | 0xee..=0xef, 0x80..=0xbf, 0x80..=0xbf, ..] => Some(3),
        [0xf0, 0x90..=0xbf, 0x80..=0xbf, 0x80..=0xbf, ..] => Some(4),
        [0xf1..=0xf3, 0x80..=0xbf, 0x80..=0xbf, 0x80..=0xbf, ..] => Some(4),
        [0xf4, 0x80..=0x8f, 0x80..=0xbf, 0x80..=0xbf, ..] => Some(4),
        _ => None,
    }
}

// A character, written.
fn put(rt: &impl Print, s: &[u8]) -> io::Result<()> {
    match s {
        b"&" => rt.write_all(b"&amp;"),
        b"<" => rt.write_all(b"&lt;"),
        b">" => rt.write_all(b"&gt;"),
        _ => rt.write_all(s),
    }
}

// A name, cut where it would be wider than 40 letters: a character of three bytes or more is as wide as two.
pub fn write(rt: &impl Print, name: &[u8]) -> io::Result<()> {
    let mut rest = name;
    let mut wide: usize = 0;
    // No `for`: how far a step goes depends on the bytes.
    while !rest.is_empty() {
        if wide >= 40 {
            return rt.write_all(b"...");
        }
        let n = match character(rest) {
            Some(n) => {
                put(rt, &rest[..n])?;
                n
            }
            None => {
                rt.write_all(b"?")?;
                1
            }
        };
        wide += if n < 3 { 1 } else { 2 };
        rest = &rest[n..];
    }
    Ok(())
}
