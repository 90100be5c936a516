// Reads a job from standard input and draws its plan as a picture (SVG); where there is no plan, prints what the listing says. In front of the job the
// name of its file may stand, and that its cuts are to be numbered; 15 is then said of a floor that no straight cuts take apart.
#![tactic(auto)]

use drawing::Layout;
use pen::Tenths;
use place::Sheet;
use stars::least::Least;
use std::io;
use words::Marks;

mod place; // place.rt: where the lines of a plan stand in the picture
mod pen; // pen.rt: decimals and the start of a text
mod name; // name.rt: the name of a file, written safely
mod mark; // mark.rt: the fingerprint of a job's bytes
mod tints; // tints.rt: tints that differ between neighbours
mod names; // names.rt: what a rectangle is called, and its colour
mod rooms; // rooms.rt: the rectangles: ground, outline and number
mod least; // least.rt: least sizes where they bind
mod stretches; // stretches.rt: marks on stretches of lines
mod wall_marks; // wall_marks.rt: the marks of the walls, as in the joiner's list
mod cutting; // cutting.rt: the numbers of the cuts, in their order
mod grid; // grid.rt: the lines of the cells
mod sides; // sides.rt: numbers along the sheet's sides
mod words; // words.rt: which job it is, and how the picture is read

// The tag of the field that holds the name of the job's file; a job begins with 1.
const NAME: u8 = 110;

// The tag of the empty field that asks for the cuts.
const CUTS: u8 = 99;

// What is asked for: a job, under the name of its file, and whether its cuts are to be numbered.
#[derive(Clone, Copy)]
struct Asked<'a> {
    cuts: bool,
    name: &'a [u8],
    job: &'a [u8],
}

// The value of the field at the front, where it begins with a tag, and what stands behind it.
fn front(input: &[u8], tag: u8) -> Option<(&[u8], &[u8])> {
    if input.first() != Some(&tag) {
        return None;
    }
    let value = fields::value_at(input, 0);
    Some((value, &input[fields::after_at(input, 0)..]))
}

// What stands behind the cuts, where they are asked for at the front.
fn behind_cuts(input: &[u8]) -> Option<&[u8]> {
    let (value, rest) = front(input, CUTS)?;
    if !value.is_empty() {
        return None;
    }
    Some(rest)
}

// The name at the front, empty where there is none, and what stands behind it.
fn named(input: &[u8]) -> (&[u8], &[u8]) {
    front(input, NAME).unwrap_or((b"", input))
}

impl<'a> Asked<'a> {
    // The name may stand before the cuts or behind them.
    fn read(input: &'a [u8]) -> Asked<'a> {
        if let Some(rest) = behind_cuts(input) {
            let (name, job) = named(rest);
            return Asked {
                cuts: true,
                name,
                job,
            };
        }
        let (name, rest) = named(input);
        let behind = behind_cuts(rest);
        Asked {
            cuts: behind.is_some(),
            name,
            job: behind.unwrap_or(rest),
        }
    }
}

// The head of the picture: its size, in millimetres where page or screen allow and never larger than they are, what it shows, and white under all of it.
fn head(rt: &impl Print, sheet: Sheet) -> io::Result<()> {
    let width = sheet.picture_width();
    let height = sheet.picture_height();
    let wide = Tenths(width * 3);
    let high = Tenths(height * 3);
    print!(rt;
        "<svg xmlns=\"http://www.w3.org/2000/svg\" version=\"1.1\" width=\"{wide}mm\" height=\"{high}mm\" viewBox=\"0 0 {width} {height}\""
    )?;
    rt.print(" font-family=\"sans-serif\" text-anchor=\"middle\">\n")?;
    rt.print("<style>@page{margin:10mm}svg{max-width:100%;max-height:100%}</style>\n")?;
    println!(rt;
        "<title>Floor plan of {} by {} cells</title>",
        sheet.width, sheet.height
    )?;
    println!(rt; "<rect width=\"{width}\" height=\"{height}\" fill=\"#ffffff\"/>")
}

// The floor: grounds, the grid over them, walls and numbers over both, least sizes where they bind, the marks on them, then what stands along the sides.
fn floor(
    rt: &impl Print,
    sheet: Sheet,
    plan: &Layout,
    sizes: &Least,
    marks: Marks,
) -> io::Result<()> {
    let tints = tints::tints_of(plan);
    rooms::paint_all(plan, &tints, |painted| rooms::ground(rt, sheet, painted))?;
    grid::grid(rt, sheet)?;
    rooms::paint_all(plan, &tints, |painted| rooms::outline(rt, sheet, painted))?;
    least::show_all(rt, sheet, plan, sizes)?;
    match marks {
        Marks::Walls => wall_marks::mark_all(rt, sheet, plan)?,
        Marks::Cuts(tree) => cutting::number_all(rt, sheet, tree)?,
    }
    sides::sides(rt, sheet)
}

// The picture: the floor, and words above and below it.
fn picture(
    rt: &impl Print,
    plan: &Layout,
    sizes: &Least,
    marks: Marks,
    asked: Asked,
) -> io::Result<()> {
    let sheet = Sheet {
        width: plan.width,
        height: plan.height,
        sized: sizes.told != 0,
    };
    head(rt, sheet)?;
    words::identity(rt, sheet, asked.name, asked.job)?;
    floor(rt, sheet, plan, sizes, marks)?;
    words::key(rt, sheet, marks)?;
    rt.print("</svg>\n")
}

// The picture with its cuts, where there are any that take the floor apart.
fn cut_picture(rt: &impl Print, plan: &Layout, sizes: &Least, asked: Asked) -> io::Result<()> {
    let mut tree = [0u8; 535];
    match cuts::write_cuts(plan.rects, plan.rooms, plan.width, plan.height, &mut tree) {
        Ok(_) => picture(rt, plan, sizes, Marks::Cuts(&tree), asked),
        Err(why) => {
            let number = why.number();
            println!(rt; "refused {number}")
        }
    }
}

// What the listing says.
fn say(rt: &impl Print, input: &[u8]) -> io::Result<()> {
    let mut out = letters::page();
    let length = texts::list(input, &mut out);
    rt.write_all(&out[..length])
}

// What is written for what is asked for.
fn answer(rt: &impl Print, asked: Asked) -> io::Result<()> {
    if asked.job.len() > 8192 {
        return say(rt, asked.job);
    }
    let Ok(board) = board::plan_job(asked.job) else {
        return say(rt, asked.job);
    };
    let plan = board.plan.lent();
    let sizes = board.sizes.lent();
    if asked.cuts {
        cut_picture(rt, &plan, &sizes, asked)
    } else {
        picture(rt, &plan, &sizes, Marks::Walls, asked)
    }
}

// One byte more than is allowed of a job is read, which tells that it is too long; a name has up to 255 bytes, and what asks for the cuts has 3.
fn main(rt: HostRuntime) {
    let mut input = [0u8; 8454];
    match streams::read_full(&mut rt.stdin(), &mut input) {
        Ok(n) => streams::unwritten(&rt, answer(&rt, Asked::read(&input[..n]))),
        Err(why) => streams::unread(&rt, why),
    }
}
