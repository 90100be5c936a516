// The words on a picture: above it which job it shows, below it how it is read.
ghost use Rattle.std.specs.Prelude.{◌≤◌};

use crate::place::Sheet;
use crate::{mark, name, pen};
use std::{fmt, io};

// What the marks on the lines of the floor are: the walls of the joiner's list, or the cuts in their order, by
// their tree: that of sixty rooms has 535 bytes.
#[derive(Clone, Copy)]
pub enum Marks<'a> {
    Walls,
    Cuts(&'a [u8; 535]),
}

// The start of a line of words, in the middle of the picture.
fn open(rt: &impl Print, sheet: Sheet, y: usize, size: usize) -> io::Result<()> {
    pen::open_text(rt, sheet.picture_width() / 2, y, size)
}

// A line of words below the picture, so far below its bottom line.
fn line<T: fmt::Display + Drop>(
    rt: &impl Print,
    sheet: Sheet,
    below: usize,
    text: T,
) -> io::Result<()>
    requires { below ≤ 100 }
{
    open(rt, sheet, sheet.down(0) + below, 11)?;
    println!(rt; ">{text}</text>")
}

// The name of the job's file, on a line of its own.
fn named(rt: &impl Print, sheet: Sheet, name: &[u8]) -> io::Result<()> {
    open(rt, sheet, 16, 12)?;
    rt.print(" font-weight=\"bold\">")?;
    if name.is_empty() {
        rt.print("(a job without a file name)")?;
    }
    name::write(rt, name)?;
    rt.print("</text>\n")
}

// Which job the picture shows, so that two prints can be told apart: its name, the size of its sheet and the fingerprint of its bytes.
pub fn identity(rt: &impl Print, sheet: Sheet, name: &[u8], job: &[u8]) -> io::Result<()> {
    let Sheet { width, height, .. } = sheet;
    let mark = mark::fingerprint(job);
    named(rt, sheet, name)?;
    open(rt, sheet, 34, 12)?;
    println!(rt; ">sheet {width} by {height} cells, fingerprint {mark}</text>")
}

// How the picture is read.
pub fn key(rt: &impl Print, sheet: Sheet, marks: Marks) -> io::Result<()> {
    line(
        rt,
        sheet,
        30,
        "The grey strip, one cell wide, is the frame: sides N, W, S and E.",
    )?;
    let across = sheet.last_across();
    let up = sheet.last_up();
    line(
        rt,
        sheet,
        42,
        format_args!("Rooms begin at line 1 and end at line {across} across and line {up} up."),
    )?;
    let marked = match marks {
        Marks::Walls => "Walls are marked as in the joiner's list: W upright, L level.",
        Marks::Cuts(_) => "White on black: straight cuts, in the order in which they are made.",
    };
    line(rt, sheet, 54, marked)?;
    let cell = pen::Tenths(sheet.cell() * 3);
    line(
        rt,
        sheet,
        66,
        format_args!("x runs west to east, y south to north. At full size a cell is {cell} mm."),
    )?;
    // That nobody can do with less is proved of every plan.
    line(rt, sheet, 78, "No sheet with these contacts is smaller.")?;
    if sheet.sized {
        line(
            rt,
            sheet,
            90,
            "Blue inside a room: it is just as wide, or as high, as it must be at least.",
        )?;
    }
    Ok(())
}
