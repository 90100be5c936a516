// Marks on the lines of a plan: where a mark stands on a stretch of a line, how large it is and which way it is read.
ghost use Rattle.std.specs.Prelude.{◌≡◌, ◌-◌, ◌≤◌};

use crate::pen;
use crate::place::Sheet;
use std::{fmt, io};

// The direction in which a stretch runs.
#[derive(Clone, Copy)]
pub enum Way {
    Upright,
    Level,
}

// A stretch of a line: the way it runs, the line, and where it begins and ends.
#[derive(Clone, Copy)]
pub struct Stretch {
    pub way: Way,
    pub line: u16,
    pub from: u16,
    pub to: u16,
}

// Where a stretch runs, in words.
impl fmt::Display for Stretch {
    fn fmt<W: fmt::Write>(&self, f: &mut fmt::Formatter<W>) -> fmt::Result {
        let Stretch {
            way,
            line,
            from,
            to,
        } = *self;
        match way {
            Way::Upright => write!(f, "upright: x {line}, y {from} to {to}"),
            Way::Level => write!(f, "level: y {line}, x {from} to {to}"),
        }
    }
}

impl Stretch {
    // How long it is; 0 where it ends before it begins.
    pub fn length(self) -> u16
        ensures { result ≡ self.to - self.from }
    {
        self.to.saturating_sub(self.from)
    }

    // The line before the middle unit. In the middle of a unit no line ends at the mark, and marks on lines that meet keep clear of each other.
    fn middle(self) -> u16
        ensures { result ≤ 65534 }
    {
        match self.length() {
            0 => 0,
            length => self.from + (length - 1) / 2,
        }
    }

    // Where the mark stands, from the left of the picture: in the middle of the middle unit.
    fn across(self, sheet: Sheet) -> usize
        ensures { (40 ≤ result) × (result ≤ 6000000) }
    {
        let at = self.middle();
        match self.way {
            Way::Upright => sheet.across(self.line),
            Way::Level => sheet.middle_across(at, at + 1),
        }
    }

    // Where it stands from the top.
    fn down(self, sheet: Sheet) -> usize
        ensures { (40 ≤ result) × (result ≤ 6000000) }
    {
        let at = self.middle();
        match self.way {
            Way::Upright => sheet.middle_down(at, at + 1),
            Way::Level => sheet.down(self.line),
        }
    }
}

// The size of the marks: 2.1 mm in the smallest cell, and less than that of any room's number.
pub fn size_of(sheet: Sheet) -> usize
    ensures { result ≤ 12 }
{
    (sheet.cell() / 4 + 2).min(12)
}

// How a mark looks: its class, half its width, the tint of its ground, and further attributes of its text.
#[derive(Clone, Copy)]
pub struct Look<'a> {
    pub class: &'a str,
    pub half: usize,
    pub ground: &'a str,
    pub text: &'a str,
}

// A mark in a group of its own, on its own ground so that it is read on its line: what is shown where the pointer rests on it, and its text. One on upright lines is
// read from the right.
pub fn mark<T: fmt::Display + Drop, M: fmt::Display + Drop>(
    rt: &impl Print,
    sheet: Sheet,
    stretch: Stretch,
    look: Look,
    title: T,
    text: M,
) -> io::Result<()>
    requires { look.half ≤ 14 }
{
    let x = stretch.across(sheet);
    let y = stretch.down(sheet);
    let size = size_of(sheet);
    let Look {
        class,
        half,
        ground,
        text: attributes,
    } = look;
    print!(rt; "<g class=\"{class}\"")?;
    if let Way::Upright = stretch.way {
        print!(rt; " transform=\"rotate(-90 {x} {y})\"")?;
    }
    print!(rt; "><title>{title}</title>")?;
    print!(rt;
        "<rect x=\"{}\" y=\"{}\" width=\"{}\" height=\"{}\" fill=\"{ground}\"/>",
        x - half,
        y - size / 2,
        2 * half,
        size / 2 * 2
    )?;
    pen::open_text(rt, x, y, size)?;
    println!(rt; "{attributes}>{text}</text></g>")
}
