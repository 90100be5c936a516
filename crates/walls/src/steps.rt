// One rule, and what it does to the numbers.
ghost use Rattle.std.specs.Prelude.{◌≡◌, [], ◌∷◌, ◌<◌, length};
ghost use Rattle.walls.specs.Steps.{Lifts, Ran, rule_of, both};

use crate::Step;

impl Step {
    // What one step and then another did.
    pub fn then(self, next: Step) -> Step
        ensures { result ≡ both self next }
    {
        self.max(next)
    }
}

// Side b raised to at least w above side a.
fn lift(f: &mut [u16], a: usize, b: usize, w: u16, top: u16) -> Step
    requires { (a < length f.old) × (b < length f.old) }
    ensures { Lifts result f.old f.new a b w top }
{
    let v = usize::from(f[a]) + usize::from(w);
    if v <= usize::from(f[b]) {
        return Step::Kept;
    }
    if usize::from(top) < v {
        return Step::Over;
    }
    f[b] = v as u16;
    Step::Raised
}

// One rule: b at least w above a, and for w = 0 on one wall with it.
pub fn apply(f: &mut [u16], a: usize, b: usize, w: u16, top: u16) -> Step
    requires { (a < length f.old) × (b < length f.old) }
    ensures { Ran result (rule_of a b w ∷ []) f.old f.new top }
{
    let up = lift(f, a, b, w, top);
    if 0 < w {
        return up;
    }
    match up {
        Step::Kept => lift(f, b, a, 0, top),
        Step::Raised => Step::Raised,
        Step::Over => Step::Over,
    }
}
