// What one job counts for in each figure.
ghost use Rattle.std.specs.Prelude.{◌≡◌, ◌*◌, ◌≤◌, map, take, if◌then◌else◌, nat_eq};
ghost use Rattle.floor.specs.Lists.{sum};
ghost use Rattle.floor.specs.Plans.{area};
ghost use Rattle.floor.specs.Calls.{load};
ghost use Rattle.drawing.specs.Rects.{rects_lent};
ghost use Rattle.season.specs.Counted.{counted, listed};

use drawing::Layout;

// One where two numbers are the same, nothing where they are not.
#[tactic(auto, using(crate::proofs::Counting::same_bit))]
fn is(a: u8, b: u8) -> usize
    ensures { result ≡ (if nat_eq a b then 1 else 0) }
{
    usize::from(a == b)
}

// The cells of the four sides of the frame.
fn frame_cells(plan: &Layout) -> usize
    ensures { result ≡ sum (map area (take 4 (rects_lent plan.now))) }
{
    let n = plan.rectangle(0).area();
    let w = plan.rectangle(1).area();
    let s = plan.rectangle(2).area();
    let e = plan.rectangle(3).area();
    n + w + s + e
}

// The figures of one job: whether it is accepted, the number of the refusal that it fell to, 0 for none, its sheet, and the cells of its frame; those of its rooms
// are all others.
// By its number, not an Option of it: each line asks for a number, and would have to take the Option apart first.
fn figures_of(accepted: usize, k: u8, width: u16, height: u16, frame: usize) -> [usize; 16]
    requires { frame ≤ width * height }
    ensures { result ≡ listed accepted k width height frame }
{
    let wide = usize::from(width);
    let high = usize::from(height);
    let sheet = wide * high;
    let rooms = sheet - frame;
    [
        accepted,
        is(k, 1),
        is(k, 2),
        is(k, 3),
        is(k, 4),
        is(k, 5),
        is(k, 6),
        is(k, 7),
        is(k, 9),
        is(k, 17),
        is(k, 18),
        wide,
        high,
        rooms,
        frame,
        sheet,
    ]
}

// What a job counts for in each figure.
pub fn counts_of(job: &[u8]) -> [usize; 16]
    ensures { result ≡ counted (load job.now) }
{
    match board::plan_job(job) {
        Err(k) => figures_of(0, k.number(), 0, 0, 0),
        Ok(board) => {
            let plan = board.plan.lent();
            figures_of(1, 0, plan.width, plan.height, frame_cells(&plan))
        }
    }
}
