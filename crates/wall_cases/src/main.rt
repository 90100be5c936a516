// The wall numbers of jobs on standard input, ten fields with a job each: the sheet and, room by room, its four walls, or that the walls run in a
// circle, and how many upright walls have the number 2; then those of two stars made by hand.
#![tactic(auto)]

ghost use Rattle.std.specs.Prelude.{◌<◌};

use stars::Stars;
use stars::held::Held;
use std::io;
use walls::{Sides, Walls};

// A vertex and its walls: left, right, lower, upper.
fn show_sides(rt: &impl Print, xs: &[u16], ys: &[u16], v: usize) -> io::Result<()> {
    let Sides {
        left,
        right,
        lower,
        upper,
    } = walls::sides_at(xs, ys, v);
    println!(rt; "{v} {} {} {} {}", left.0, right.0, lower.0, upper.0)
}

// The walls of held stars, with no least sizes; none where they run in a circle.
fn walls_of(stars: &Held) -> Option<Walls> {
    let sizes = stars::least::none_told();
    walls::walls_of(stars, &sizes.lent())
}

// The width and height of the sheet, and the walls of every room, where the walls run in no circle.
fn show_walls(rt: &impl Print, walls: Option<&Walls>, count: u8) -> io::Result<()> {
    let Some(Walls { uprights, levels }) = walls else {
        return rt.println(" circle");
    };
    let walls::Sheet { width, height } = walls::sheet_at(&uprights.0, &levels.0);
    println!(rt; " {width} {height}")?;
    for i in 0..usize::from(count) {
        show_sides(rt, &uprights.0, &levels.0, 4 + i)?;
    }
    Ok(())
}

// A name, and the walls of held stars.
fn show_stars(rt: &impl Print, name: &str, stars: &Stars) -> io::Result<()> {
    rt.print(name)?;
    show_walls(rt, walls_of(&stars.lent()).as_ref(), stars.count)
}

// The mark of each side: sides on one wall have the same.
#[derive(Clone, Copy)]
struct Marks([u16; 128]);

impl Marks {
    // Every side marked with itself.
    fn apart() -> Marks {
        let mut marks = [0u16; 128];
        for (side, mark) in (0u16..).zip(&mut marks) {
            *mark = side;
        }
        Marks(marks)
    }

    // Two sides put on one wall: whatever has the second's mark gets the first's. A side past the end has mark 0.
    fn join(&mut self, first: usize, second: usize) {
        let to = self.0.get(first).copied().unwrap_or(0);
        let from = self.0.get(second).copied().unwrap_or(0);
        for mark in &mut self.0 {
            if *mark == from {
                *mark = to;
            }
        }
    }

    // The upright sides of one contact joined: the right side of the one on the left, and the left side of the other.
    fn join_contact(&mut self, u: usize, v: usize, kind: u8)
        requires { (u < 1024) × (v < 1024) }
    {
        match kind {
            3 => self.join(2 * u + 1, 2 * v),
            1 => self.join(2 * v + 1, 2 * u),
            _ => {}
        }
    }

    // The upright sides joined by one room's contacts.
    fn join_star(&mut self, stars: &Held, i: usize)
        requires { i < 256 }
    {
        for k in stars.start_of(i)..stars.end_of(i) {
            self.join_contact(4 + i, stars.to_at(k), stars.kind_at(k));
        }
    }

    // How many walls have the number: each is counted at the side after which it is marked.
    fn walls_numbered(&self, numbers: &[u16; 128], number: u16) -> usize {
        (0u16..)
            .zip(&self.0)
            .zip(numbers)
            .filter(|&((side, mark), held)| *mark == side && *held == number)
            .count()
    }
}

// How many upright walls of a job have the number 2.
fn twos(stars: &Stars) -> usize {
    let held = stars.lent();
    let Some(walls) = walls_of(&held) else {
        return 0;
    };
    let mut marks = Marks::apart();
    for i in 0..usize::from(stars.count) {
        marks.join_star(&held, i);
    }
    marks.walls_numbered(&walls.uprights.0, 2)
}

// Held stars with one room, whose neighbour on the right is given.
fn one_room(east: u16) -> Stars {
    let mut stars = stars::held::none_held();
    stars.count = 1;
    stars.ends[0] = 4;
    stars.nbr[..4].copy_from_slice(&[0, 1, 2, east]);
    stars.kind[..4].copy_from_slice(&[0, 1, 2, 3]);
    stars
}

// The walls of a job and how many of them have the number 2; or the number of the test that it fails before it has walls.
fn show_job(rt: &impl Print, job: &[u8]) -> io::Result<()> {
    let many = match jobs::read_job(job) {
        Ok(read) => {
            show_stars(rt, "job", &read.stars)?;
            twos(&read.stars)
        }
        Err(why) => {
            let number = why.number();
            println!(rt; "job refused {number}")?;
            0
        }
    };
    println!(rt; "upright walls numbered 2: {many}")
}

// The walls of the jobs on standard input, a field each, as many as are shown.
fn show_jobs(rt: &impl Print, input: &[u8]) -> io::Result<()> {
    let mut at: usize = 0;
    for _ in 0..10 {
        show_job(rt, fields::value_at(input, at))?;
        at = fields::after_at(input, at);
    }
    Ok(())
}

fn main(rt: HostRuntime) -> io::Result<()> {
    let mut input = [0u8; 2048];
    let n = streams::read_full(&mut rt.stdin(), &mut input)?;
    show_jobs(&rt, &input[..n])?;
    show_stars(&rt, "one room, held", &one_room(3))?;
    show_stars(&rt, "one room, neighbour 5", &one_room(5))
}
