// Every rectangle inside the sheet, and the areas added up.
// Loops over vertices and places are `for` loops in this crate: of the chains `all` and `map` with `sum`, tried below, the proof did not close against the definitions' own words.
ghost use Rattle.std.specs.Prelude.{◌≡◌, map, ◌*◌, eqb};
ghost use Rattle.floor.specs.Lists.{all, sum};
ghost use Rattle.floor.specs.Plans.{area};
ghost use Rattle.drawing.specs.Rects.{rects_lent};
ghost use Rattle.drawing.specs.Tests.{inside_sheet};

use crate::Layout;

// Whether each rectangle has at least a cell and lies inside the sheet.
pub fn all_inside(layout: &Layout) -> bool
    ensures { result ≡ all (inside_sheet layout.now.width layout.now.height) (rects_lent layout.now) }
{
    for v in 0..layout.many() {
        if !layout.rect_at(v).inside(layout.width, layout.height) {
            return false;
        }
    }
    true
}

// The areas, added up.
fn areas(layout: &Layout) -> usize
    ensures { result ≡ sum (map area (rects_lent layout.now)) }
{
    let mut total = 0;
    for v in 0..layout.many() {
        total += layout.rect_at(v).area();
    }
    total
}

// Whether they add up to width times height.
pub fn areas_fill(layout: &Layout) -> bool
    ensures { result ≡ eqb (sum (map area (rects_lent layout.now))) (layout.now.width * layout.now.height) }
{
    areas(layout) == usize::from(layout.width) * usize::from(layout.height)
}
