// What is printed of an answer, as text in a lent buffer.
ghost use Rattle.std.specs.Prelude.{◌≡◌, ◌≤◌, length};
ghost use Rattle.std.proofs.lemmas.List.Edits.{sets};
ghost use Rattle.floor.specs.Foreign.{answers};
ghost use Rattle.floor.specs.Verdicts.{verdict_text, judged_together, check_listing};
ghost use Rattle.letters.specs.Puts.{Puts};
ghost use Rattle.elsewhere.specs.Answers.{verdict};

use refusals::Refusal;

// Yes or no, on a line.
#[tactic(auto, unfolding(floor::specs::Verdicts::verdict_text, floor::specs::Verdicts::yes_line, floor::specs::Verdicts::no_line, floor::specs::Quoted::plain))]
fn put_answer(good: bool, out: &mut [u8]) -> usize
    ensures { Puts out.old 0 (verdict_text (answers good)) out.new result }
{
    if good {
        return letters::word::put_word(out, 0, b"yes\n");
    }
    letters::word::put_word(out, 0, b"no\n")
}

// The answer to a job behind its length, and then a plan.
#[tactic(auto, using(crate::proofs::Printing::no_length, crate::proofs::Printing::job_cut, crate::proofs::Printing::both_there))]
fn judge_together(input: &[u8]) -> Result<bool, Refusal>
    ensures { verdict result ≡ judged_together input.now }
{
    let [high, low, both @ ..] = input else {
        return Err(Refusal::NotAJob);
    };
    let n = 256 * usize::from(*high) + usize::from(*low);
    if both.len() < n {
        return Err(Refusal::NotAJob);
    }
    crate::judge(&both[..n], &both[n..])
}

// What the checking program prints for some input, at the front; how many bytes that takes is handed back.
pub fn list_check(input: &[u8], out: &mut [u8; 8192]) -> usize
    ensures { (result ≡ length (check_listing input.now)) × (out.new ≡ sets out.old 0 (check_listing input.now))
        × (result ≤ 8192) }
{
    if 16384 < input.len() {
        return letters::word::put_too_long(out, 0);
    }
    match judge_together(input) {
        Err(k) => letters::line::put_refusal(out, 0, k.number()),
        Ok(good) => put_answer(good, out),
    }
}
