// What stands along the sides of the sheet: every line has its number at both its ends. Two digits take three quarters of the smallest cell, and so do
// three in a smaller size, so that they always fit.
use crate::pen;
use crate::place::Sheet;
use std::io;

// A point of the picture, from the left and from the top.
#[derive(Clone, Copy)]
struct Point {
    x: usize,
    y: usize,
}

// What stands at one end of a line: a tick from a point on, and the line's number.
#[derive(Clone, Copy)]
struct End {
    tick: Point,
    number: Point,
}

// The ends of an upright line: above the sheet and below it.
fn upright(sheet: Sheet, line: u16) -> [End; 2] {
    let x = sheet.across(line);
    let top = sheet.down(sheet.height);
    let bottom = sheet.down(0);
    [
        End {
            tick: Point { x, y: top - 5 },
            number: Point { x, y: top - 12 },
        },
        End {
            tick: Point { x, y: bottom },
            number: Point { x, y: bottom + 12 },
        },
    ]
}

// The ends of a level line: left of the sheet and right of it.
fn level(sheet: Sheet, line: u16) -> [End; 2] {
    let y = sheet.down(line);
    let left = sheet.across(0);
    let right = sheet.across(sheet.width);
    [
        End {
            tick: Point { x: left - 5, y },
            number: Point { x: left - 16, y },
        },
        End {
            tick: Point { x: right, y },
            number: Point { x: right + 16, y },
        },
    ]
}

// A line's number at a point: every fifth stands out, as the line does, and three digits are smaller.
fn number(rt: &impl Print, line: u16, at: Point) -> io::Result<()> {
    let size = if line < 100 { 12 } else { 8 };
    let weight = if line % 5 == 0 {
        " font-weight=\"bold\""
    } else {
        ""
    };
    pen::open_text(rt, at.x, at.y, size)?;
    print!(rt; "{weight}>{line}</text>")
}

// The number of a line at both its ends, with a tick each, in the direction that a letter of a path gives.
fn number_line(rt: &impl Print, line: u16, way: &str, ends: [End; 2]) -> io::Result<()> {
    rt.print("<path stroke=\"#222222\" d=\"")?;
    for End { tick, .. } in ends {
        print!(rt; "M{} {}{way}5", tick.x, tick.y)?;
    }
    rt.print("\"/>")?;
    for end in ends {
        number(rt, line, end.number)?;
    }
    rt.print("\n")
}

// The numbers of all lines along both axes, with the last.
pub fn sides(rt: &impl Print, sheet: Sheet) -> io::Result<()> {
    for x in 0..=sheet.width {
        number_line(rt, x, "v", upright(sheet, x))?;
    }
    for y in 0..=sheet.height {
        number_line(rt, y, "h", level(sheet, y))?;
    }
    Ok(())
}
