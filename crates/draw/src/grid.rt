// The lines of the cells: light, and every fifth a little darker, so that an eye can follow it to its number.
ghost use Rattle.std.specs.Prelude.{◌<◌};

use crate::place::Sheet;
use std::io;

// Every so many lines along both axes, as one path in a colour and a width.
fn path(rt: &impl Print, sheet: Sheet, every: u16, stroke: &str, width: &str) -> io::Result<()>
    requires { 0 < every }
{
    print!(rt; "<path fill=\"none\" stroke=\"{stroke}\" stroke-width=\"{width}\" d=\"")?;
    let left = sheet.across(0);
    let top = sheet.down(sheet.height);
    let long = sheet.span(0, sheet.width);
    let tall = sheet.span(0, sheet.height);
    for x in (0..sheet.width).filter(|x| x % every == 0) {
        print!(rt; "M{} {top}v{tall}", sheet.across(x))?;
    }
    for y in (0..sheet.height).filter(|y| y % every == 0) {
        print!(rt; "M{left} {}h{long}", sheet.down(y))?;
    }
    rt.print("\"/>\n")
}

// The grid: every line, then every fifth.
pub fn grid(rt: &impl Print, sheet: Sheet) -> io::Result<()> {
    path(rt, sheet, 1, "#bbbbbb", "0.5")?;
    path(rt, sheet, 5, "#888888", "0.8")
}
