// The straight cuts that take the floor apart, numbered in the order in which they are made: that of the tree as it is written.
ghost use Rattle.std.specs.Prelude.{◌+◌, ◌≤◌, length, IfSome};

use crate::place::Sheet;
use crate::stretches;
use crate::stretches::{Look, Stretch, Way};
use std::io;

// A part of the floor, by the lines that it spans.
#[derive(Clone, Copy)]
struct Part {
    x1: u16,
    y1: u16,
    x2: u16,
    y2: u16,
}

impl Part {
    // Where all rooms lie.
    fn whole(sheet: Sheet) -> Part {
        Part {
            x1: 1,
            y1: 1,
            x2: sheet.last_across(),
            y2: sheet.last_up(),
        }
    }

    // The stretch along which a line cuts the part.
    fn stretch(self, way: Way, line: u16) -> Stretch {
        let (from, to) = match way {
            Way::Upright => (self.y1, self.y2),
            Way::Level => (self.x1, self.x2),
        };
        Stretch {
            way,
            line,
            from,
            to,
        }
    }

    // What a cut leaves before the line.
    fn before(self, way: Way, line: u16) -> Part {
        match way {
            Way::Upright => Part { x2: line, ..self },
            Way::Level => Part { y2: line, ..self },
        }
    }

    // What a cut leaves behind the line.
    fn behind(self, way: Way, line: u16) -> Part {
        match way {
            Way::Upright => Part { x1: line, ..self },
            Way::Level => Part { y1: line, ..self },
        }
    }
}

// Half the room that a number takes along its cut, with a rim.
fn half(nth: usize, size: usize) -> usize
    requires { size ≤ 12 }
    ensures { result ≤ 14 }
{
    if nth < 10 {
        return size / 3 + 2;
    }
    2 * size / 3 + 2
}

// A cut's number in the middle of its stretch, white on black, so that it is not taken for a room's.
fn number_cut(rt: &impl Print, sheet: Sheet, stretch: Stretch, nth: usize) -> io::Result<()> {
    let look = Look {
        class: "cut",
        half: half(nth, stretches::size_of(sheet)),
        ground: "#000000",
        text: " font-weight=\"bold\" fill=\"#ffffff\"",
    };
    stretches::mark(
        rt,
        sheet,
        stretch,
        look,
        format_args!("cut {nth}, {stretch}"),
        nth,
    )
}

// A field of the tree: its cut, by direction and line, or none for a room alone; and what stands behind it.
#[derive(Clone, Copy)]
struct Field<'a> {
    cut: Option<(Way, u16)>,
    behind: &'a [u8],
}

// The field at the front: a cut has tag 5, then its direction and its line.
fn front(tree: &[u8]) -> Option<Field<'_>>
    ensures { IfSome result (λ f. (length f.behind.now + 4 ≤ length tree.now) × (length tree.now ≤ length f.behind.now + 5)) }
{
    match tree {
        &[5, _, _, way, line, ref behind @ ..] => {
            let way = if way == 0 { Way::Upright } else { Way::Level };
            Some(Field {
                cut: Some((way, u16::from(line))),
                behind,
            })
        }
        &[5, ..] => None,
        &[_, _, _, _, ref behind @ ..] => Some(Field { cut: None, behind }),
        _ => None,
    }
}

// All cuts of a tree, numbered from its front on. The parts that wait stand on a stack of fixed
// size, what a cut leaves before its line on top: no function here calls itself (tests/stack). Sixty rooms are never more than sixty parts.
pub fn number_all(rt: &impl Print, sheet: Sheet, tree: &[u8; 535]) -> io::Result<()> {
    let mut parts = [Part::whole(sheet); 64];
    let mut many: usize = 1;
    let mut made: usize = 0;
    let mut rest: &[u8] = tree;
    'fields: while let Some(field) = front(rest) {
        rest = field.behind;
        if many == 0 || 63 < many {
            return Ok(());
        }
        let part = parts[many - 1];
        let Some((way, line)) = field.cut else {
            many -= 1;
            continue;
        };
        made += 1;
        number_cut(rt, sheet, part.stretch(way, line), made)?;
        parts[many - 1] = part.behind(way, line);
        parts[many] = part.before(way, line);
        many += 1;
    }
    Ok(())
}
