// The numbers of tests 1 to 6 and 17 on examples and at the limits, the star question, and jobs written back.
#![tactic(auto)]

use jobs::Job;
use refusals::Refusal;
use stars::held::Held;
use stars::least::Least;
use std::{fmt, io};

// Some bytes in decimal, a space before each.
#[derive(Clone, Copy)]
struct Bytes<'a>(&'a [u8]);

impl<'a> fmt::Display for Bytes<'a> {
    fn fmt<W: fmt::Write>(&self, f: &mut fmt::Formatter<W>) -> fmt::Result {
        for byte in self.0 {
            write!(f, " {byte}")?;
        }
        Ok(())
    }
}

// A name, and what reading the job answers.
fn show(rt: &impl Print, name: &str, job: &[u8]) -> io::Result<()> {
    match jobs::read_job(job) {
        Ok(_) => println!(rt; "{name} passes"),
        Err(why) => {
            let number = why.number();
            println!(rt; "{name} {number}")
        }
    }
}

// A room, and the bytes of its star.
fn show_star(rt: &impl Print, name: &str, job: &[u8], room: usize) -> io::Result<()> {
    let star = Bytes(jobs::raw_star(job, room));
    println!(rt; "star of room {room}{name}:{star}")
}

// One room whose star has 360 pairs, and one whose star has 361: the second alone fails test 3.
fn show_limits(rt: &impl Print) -> io::Result<()> {
    let mut job = [0u8; 729];
    job[..7].copy_from_slice(&[1, 0, 1, 1, 2, 2, 208]);
    show(rt, "360 pairs", &job[..727])?;
    job[6] = 210;
    show(rt, "361 pairs", &job)
}

// A job read, and written into a buffer.
fn write(job: &[u8], out: &mut [u8]) -> Result<usize, Refusal> {
    let Job { stars, sizes } = jobs::read_job(job)?;
    let held = Held {
        count: usize::from(stars.count),
        ends: &stars.ends,
        nbr: &stars.nbr,
        kind: &stars.kind,
    };
    let least = Least {
        told: usize::from(sizes.told),
        list: &sizes.list,
    };
    jobs::write_job(&held, &least, out)
}

// What came of it, and the buffer.
fn show_written(rt: &impl Print, job: &[u8], out: &mut [u8]) -> io::Result<()> {
    let written = write(job, out);
    let bytes = Bytes(out);
    match written {
        Ok(length) => println!(rt; "wrote {length}:{bytes}"),
        Err(Refusal::TooShort) => println!(rt; "too short:{bytes}"),
        Err(why) => {
            let number = why.number();
            println!(rt; "refused {number}:{bytes}")
        }
    }
}

// A job without and one with sizes, each written into a buffer with a byte too many, and into one with a byte too few.
fn show_buffers(rt: &impl Print, job: &[u8], sized: &[u8]) -> io::Result<()> {
    show_written(rt, job, &mut [9; 16])?;
    show_written(rt, sized, &mut [9; 21])?;
    show_written(rt, job, &mut [9; 14])?;
    show_written(rt, sized, &mut [9; 19])
}

fn main(rt: HostRuntime) -> io::Result<()> {
    let one: &[u8] = b"\x01\x00\x01\x01\x02\x00\x08\x00\x00\x01\x01\x02\x02\x03\x03";
    let sized: &[u8] =
        b"\x01\x00\x01\x01\x02\x00\x08\x00\x00\x01\x01\x02\x02\x03\x03\x07\x00\x02\x03\x02";
    let before: [(&str, &[u8]); 4] = [
        ("P1", one),
        ("P2", b"\x01\x00\x01\x00"),
        ("P3", b""),
        (
            "P4",
            b"\x01\x00\x01\x01\x02\x00\x08\x00\x00\x01\x01\x02\x02\x03\x03\x07",
        ),
    ];
    let behind: [(&str, &[u8]); 15] = [
        ("61 rooms", b"\x01\x00\x01\x3d"),
        (
            "odd star length",
            b"\x01\x00\x01\x01\x02\x00\x07\x00\x00\x01\x01\x02\x02\x03",
        ),
        (
            "bytes left over",
            b"\x01\x00\x01\x01\x02\x00\x08\x00\x00\x01\x01\x02\x02\x03\x03\x02\x00\x00",
        ),
        (
            "star cut off",
            b"\x01\x00\x01\x01\x02\x00\x08\x00\x00\x01\x01\x02\x02\x03",
        ),
        (
            "kind 4",
            b"\x01\x00\x01\x01\x02\x00\x08\x00\x00\x01\x01\x02\x02\x03\x04",
        ),
        (
            "no kind 3",
            b"\x01\x00\x01\x01\x02\x00\x06\x00\x00\x01\x01\x02\x02",
        ),
        (
            "not answered",
            b"\x01\x00\x01\x02\x02\x00\x08\x00\x00\x01\x01\x02\x02\x05\x03\x02\x00\x08\x00\x00\x01\x01\x02\x02\x03\x03",
        ),
        ("3 by 2", sized),
        (
            "1 by 1",
            b"\x01\x00\x01\x01\x02\x00\x08\x00\x00\x01\x01\x02\x02\x03\x03\x07\x00\x02\x01\x01",
        ),
        (
            "16 by 2",
            b"\x01\x00\x01\x01\x02\x00\x08\x00\x00\x01\x01\x02\x02\x03\x03\x07\x00\x02\x10\x02",
        ),
        (
            "3 by 0",
            b"\x01\x00\x01\x01\x02\x00\x08\x00\x00\x01\x01\x02\x02\x03\x03\x07\x00\x02\x03\x00",
        ),
        (
            "1 by 15",
            b"\x01\x00\x01\x01\x02\x00\x08\x00\x00\x01\x01\x02\x02\x03\x03\x07\x00\x02\x01\x0f",
        ),
        (
            "sizes of two rooms",
            b"\x01\x00\x01\x01\x02\x00\x08\x00\x00\x01\x01\x02\x02\x03\x03\x07\x00\x04\x03\x02\x03\x02",
        ),
        (
            "a byte behind the sizes",
            b"\x01\x00\x01\x01\x02\x00\x08\x00\x00\x01\x01\x02\x02\x03\x03\x07\x00\x02\x03\x02\x00",
        ),
        (
            "not answered, 1 by 1",
            b"\x01\x00\x01\x02\x02\x00\x08\x00\x00\x01\x01\x02\x02\x05\x03\x02\x00\x08\x00\x00\x01\x01\x02\x02\x03\x03\x07\x00\x04\x01\x01\x01\x01",
        ),
    ];
    for (name, job) in before {
        show(&rt, name, job)?;
    }
    show_limits(&rt)?;
    for (name, job) in behind {
        show(&rt, name, job)?;
    }
    show_star(&rt, "", one, 4)?;
    show_star(&rt, "", one, 5)?;
    show_star(&rt, ", with sizes", sized, 4)?;
    show_buffers(&rt, one, sized)
}
