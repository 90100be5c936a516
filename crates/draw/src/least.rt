// Least sizes where they bind: a blue line inside a room that is just as wide as its job asks, along its lower side, or just as high, along its left side.
use crate::place::Sheet;
use drawing::{Layout, Rect};
use stars::least::Least;
use std::io;

// Whether a stretch is just as long as the least length asked for, and that is more than one cell.
fn binds(low: u16, high: u16, least: u8) -> bool {
    least >= 2 && high.checked_sub(low) == Some(u16::from(least))
}

// A blue line.
fn line(rt: &impl Print, x1: usize, y1: usize, x2: usize, y2: usize) -> io::Result<()> {
    println!(rt;
        "<line x1=\"{x1}\" y1=\"{y1}\" x2=\"{x2}\" y2=\"{y2}\" stroke=\"#1f4e9e\" stroke-width=\"2\"/>"
    )
}

// The lines of a room with a least width and a least height, four units inside it.
fn room(rt: &impl Print, sheet: Sheet, r: Rect, wide: u8, tall: u8) -> io::Result<()> {
    let left = sheet.across(r.x1) + 4;
    let right = sheet.across(r.x2) - 4;
    let upper = sheet.down(r.y2) + 4;
    let lower = sheet.down(r.y1) - 4;
    if binds(r.x1, r.x2, wide) {
        line(rt, left, lower, right, lower)?;
    }
    if binds(r.y1, r.y2, tall) {
        line(rt, left, upper, left, lower)?;
    }
    Ok(())
}

// The lines of all rooms.
pub fn show_all(rt: &impl Print, sheet: Sheet, plan: &Layout, sizes: &Least) -> io::Result<()> {
    for i in 0..usize::from(plan.rooms) {
        room(
            rt,
            sheet,
            plan.rectangle(4 + i),
            sizes.width_of(i),
            sizes.height_of(i),
        )?;
    }
    Ok(())
}
