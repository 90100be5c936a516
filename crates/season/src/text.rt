// The figures as text in a lent buffer, a line each.
ghost use Rattle.std.specs.Prelude.{◌≡◌, ◌*◌, ◌≤◌, length};
ghost use Rattle.std.proofs.lemmas.List.Edits.{sets};
ghost use Rattle.floor.specs.Totals.{figure_lines};
ghost use Rattle.letters.specs.Puts.{Puts};

// Some figures, a line each, put at the front of a lent buffer, as far as it reaches.
fn put_figures(sums: &[usize], out: &mut [u8]) -> usize
    ensures { Puts out.old 0 (figure_lines sums.now) out.new result
        × (length (figure_lines sums.now) ≤ 21 * length sums.now) }
{
    let mut next: usize = 0;
    for sum in sums {
        next = letters::line::put_one(out, next, *sum);
    }
    next
}

// The figures, a line each, at the front; how many bytes that takes is handed back.
pub fn list_figures(sums: &[usize; 16], out: &mut [u8; 8192]) -> usize
    ensures { (result ≡ length (figure_lines sums.now)) × (out.new ≡ sets out.old 0 (figure_lines sums.now))
        × (result ≤ 8192) }
{
    put_figures(sums, out)
}
