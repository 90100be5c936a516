// The cuts of a plan, a line each, put at a place of a lent buffer, as far as it reaches.
ghost use Rattle.std.specs.Prelude.{◌≡◌};
ghost use Rattle.floor.specs.Jobs.{SizedJob};
ghost use Rattle.floor.specs.Cuts.{Tree, write_tree, plan_tree};
ghost use Rattle.floor.specs.Calls.Sound.{Sound};
ghost use Rattle.floor.specs.Texts.{tree_lines, cut_lines};
ghost use Rattle.drawing.specs.Rects.{plan_lent};
ghost use Rattle.letters.specs.Puts.{Puts};

use crate::line;
use drawing::Layout;

// The tag of a cut's field; that of a room is the only other in a tree.
const CUT: u8 = 5;

// The lines of a tree, read from its bytes: of a cut its direction and place, of a leaf its room.
fn put_tree(bytes: &[u8], out: &mut [u8], at: usize) -> usize
    ensures { (t : Tree) → bytes.now ≡ write_tree t → Puts out.old at (tree_lines t) out.new result }
{
    let mut next = at;
    let mut rest = bytes;
    'fields: while let [tag, _, _, first, others @ ..] = rest {
        if *tag == CUT {
            let [second, behind @ ..] = others else {
                return next;
            };
            next = line::put_two(out, next, u16::from(*first), u16::from(*second));
            rest = behind;
        } else {
            next = letters::line::put_one(out, next, usize::from(*first));
            rest = others;
        }
    }
    next
}

// The lines of the cuts of a plan that is held, or 15 where it has none.
pub fn put_cuts(plan: &Layout, out: &mut [u8], at: usize) -> usize
    ensures { (j : SizedJob) → Sound j (plan_lent plan.now)
        → Puts out.old at (cut_lines (plan_tree (plan_lent plan.now))) out.new result }
{
    // room for the bytes of sixty rooms' tree
    let mut bytes = [0; 535];
    let written = cuts::write_cuts(plan.rects, plan.rooms, plan.width, plan.height, &mut bytes);
    match written {
        Ok(n) => put_tree(&bytes[..n], out, at),
        Err(k) => letters::line::put_refusal(out, at, k.number()),
    }
}
