// The pieces that a picture is written in.
use std::{fmt, io};

// A number of tenths, written as a decimal.
#[derive(Clone, Copy)]
pub struct Tenths(pub usize);

impl fmt::Display for Tenths {
    fn fmt<W: fmt::Write>(&self, f: &mut fmt::Formatter<W>) -> fmt::Result {
        let whole = self.0 / 10;
        let tenths = self.0 % 10;
        if tenths == 0 {
            return write!(f, "{whole}");
        }
        write!(f, "{whole}.{tenths}")
    }
}

// The start of a text: where its middle stands, level with the middle of the letters, and how large they are.
pub fn open_text(rt: &impl Print, x: usize, y: usize, size: usize) -> io::Result<()> {
    print!(rt; "<text x=\"{x}\" y=\"{y}\" dy=\"0.35em\" font-size=\"{size}\"")
}
