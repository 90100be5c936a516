// What a call answered, as text.
ghost use Rattle.std.specs.Prelude.{◌<◌};

use board::{Reply, Step};
use drawing::{Plan, Rect, Touch};
use refusals::Refusal;
use std::fmt;

// A digit in hex.
fn digit(n: u8) -> u8
    requires { n < 16 }
{
    if n < 10 { b'0' + n } else { b'a' - 10 + n }
}

// Some bytes in hex, two digits each, put 32 bytes at a time: a width and a radix asked of each byte took twice the time.
#[derive(Clone, Copy)]
pub struct Hex<'a>(pub &'a [u8]);

impl<'a> fmt::Display for Hex<'a> {
    fn fmt<W: fmt::Write>(&self, f: &mut fmt::Formatter<W>) -> fmt::Result {
        for part in self.0.chunks(32) {
            let mut page = [b'0'; 64];
            for (two, byte) in page.chunks_exact_mut(2).zip(part) {
                two[0] = digit(byte / 16);
                two[1] = digit(byte % 16);
            }
            let end = 2 * part.len().min(32);
            let digits = str::from_utf8(&page[..end]).map_err(|_| fmt::Error)?;
            f.write_str(digits)?;
        }
        Ok(())
    }
}

// Yes or no.
#[derive(Clone, Copy)]
pub struct Yes(pub bool);

impl fmt::Display for Yes {
    fn fmt<W: fmt::Write>(&self, f: &mut fmt::Formatter<W>) -> fmt::Result {
        write!(f, "{}", if self.0 { "yes" } else { "no" })
    }
}

// A refusal, by its number.
#[derive(Clone, Copy)]
pub struct Refused(pub Refusal);

impl fmt::Display for Refused {
    fn fmt<W: fmt::Write>(&self, f: &mut fmt::Formatter<W>) -> fmt::Result {
        write!(f, "refused {}", self.0.number())
    }
}

// How two vertices touch: the side and the length, or none.
#[derive(Clone, Copy)]
struct Touched(Touch);

impl fmt::Display for Touched {
    fn fmt<W: fmt::Write>(&self, f: &mut fmt::Formatter<W>) -> fmt::Result {
        let Touch::Wall(side, length) = self.0 else {
            return write!(f, "none");
        };
        write!(f, "touch {side} {length}")
    }
}

// What a call answered: of a job done its sheet, of a writing also the whole lent buffer, so that what lies behind is seen too.
#[derive(Clone, Copy)]
pub struct Told<'a> {
    pub step: &'a Step,
    pub lent: &'a [u8],
}

impl<'a> fmt::Display for Told<'a> {
    fn fmt<W: fmt::Write>(&self, f: &mut fmt::Formatter<W>) -> fmt::Result {
        let Plan { width, height, .. } = self.step.board.plan;
        match self.step.reply {
            Err(why) => write!(f, "{}", Refused(why)),
            Ok(Reply::Done) => write!(f, "sheet {width} {height}"),
            Ok(Reply::Spans(Rect { x1, y1, x2, y2, .. })) => write!(f, "{x1} {y1} {x2} {y2}"),
            Ok(Reply::Touched(touch)) => write!(f, "{}", Touched(touch)),
            Ok(Reply::Says(yes)) => write!(f, "{}", Yes(yes)),
            Ok(Reply::Wrote(length)) => write!(f, "wrote {length} {}", Hex(self.lent)),
            Ok(Reply::Made(turns)) => write!(f, "made {turns}"),
        }
    }
}
