// The rectangles of a plan, painted in two layers, with the grid between them.
ghost use Rattle.std.specs.Prelude.{◌≤◌};

use crate::names::{Full, Name};
use crate::pen;
use crate::place::Sheet;
use crate::tints::Tints;
use drawing::{Layout, Rect};
use std::io;

// A rectangle, whose it is, and its tint.
#[derive(Clone, Copy)]
pub struct Painted {
    rect: Rect,
    name: Name,
    tint: Option<u8>,
}

// The ground of a rectangle.
pub fn ground(rt: &impl Print, sheet: Sheet, painted: Painted) -> io::Result<()> {
    edges(rt, sheet, painted.rect)?;
    println!(rt; " fill=\"{}\"/>", painted.name.colour(painted.tint))
}

// The start of a rectangle: where it stands, as attributes.
fn edges(rt: &impl Print, sheet: Sheet, r: Rect) -> io::Result<()> {
    let x = sheet.across(r.x1);
    let y = sheet.down(r.y2);
    let width = sheet.span(r.x1, r.x2);
    let height = sheet.span(r.y1, r.y2);
    print!(rt; "<rect x=\"{x}\" y=\"{y}\" width=\"{width}\" height=\"{height}\"")
}

// The size of a rectangle's number by its shorter side: two digits fit across it, in a narrow room between the marks of its walls. The frame has letters,
// one to a side.
fn size_of(sheet: Sheet, painted: Painted) -> usize
    ensures { result ≤ 28 }
{
    let r = painted.rect;
    let wide = sheet.span(r.x1, r.x2);
    match wide.min(sheet.span(r.y1, r.y2)) {
        0..=29 => match painted.name {
            Name::Room(_) if wide < 24 => 10,
            _ => 12,
        },
        30..=39 => 14,
        40..=59 => 20,
        _ => 28,
    }
}

// A plate of the rectangle's tint under its number, so that no line of the grid strikes it through; a cell wide at least.
fn plate(rt: &impl Print, sheet: Sheet, painted: Painted) -> io::Result<()> {
    let r = painted.rect;
    let size = size_of(sheet, painted);
    let half = size / 2 + 4;
    let x = sheet.middle_across(r.x1, r.x2) - half;
    let y = sheet.middle_down(r.y1, r.y2) - size / 2;
    let width = 2 * half;
    let colour = painted.name.colour(painted.tint);
    print!(rt; "<rect x=\"{x}\" y=\"{y}\" width=\"{width}\" height=\"{size}\" fill=\"{colour}\"/>")
}

// The number of a room or the letter of a side, in the middle of its rectangle.
fn label(rt: &impl Print, sheet: Sheet, painted: Painted) -> io::Result<()> {
    let r = painted.rect;
    let name = painted.name;
    let x = sheet.middle_across(r.x1, r.x2);
    let y = sheet.middle_down(r.y1, r.y2);
    pen::open_text(rt, x, y, size_of(sheet, painted))?;
    print!(rt; "{}>{name}</text>", name.weight())
}

// The walls of a rectangle and its label, in one group under its full name and the lines that it spans.
pub fn outline(rt: &impl Print, sheet: Sheet, painted: Painted) -> io::Result<()> {
    let Rect { x1, y1, x2, y2, .. } = painted.rect;
    let name = Full(painted.name);
    print!(rt; "<g><title>{name}: x {x1} to {x2}, y {y1} to {y2}</title>")?;
    plate(rt, sheet, painted)?;
    edges(rt, sheet, painted.rect)?;
    rt.print(" fill=\"none\" stroke=\"#222222\" stroke-width=\"2\" pointer-events=\"all\"/>")?;
    label(rt, sheet, painted)?;
    rt.print("</g>\n")
}

// All rectangles painted, one after the other.
pub fn paint_all<F: Fn(Painted) -> io::Result<()>>(
    plan: &Layout,
    tints: &Tints,
    paint: F,
) -> io::Result<()>
    requires { F.IsAlwaysCallable paint }
{
    for v in 0..plan.many() {
        paint(Painted {
            rect: plan.rectangle(v),
            name: Name::from(v),
            tint: tints.of(v),
        })?;
    }
    Ok(())
}
