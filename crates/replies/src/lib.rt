// What a program that hands out bytes says: the bytes, the number of a refusal, or that the input is too long.
#![tactic(auto)]

ghost use Rattle.std.specs.Prelude.{◌≡◌, ◌+◌, ◌<◌, MatchResult};

use std::io;

// The number of a refusal.
pub fn refuse(rt: &impl Print, k: u8) -> io::Result<()> {
    let mut out = letters::page();
    let length = texts::list_refusal(k, &mut out);
    rt.write_all(&out[..length])
}

// That the input is too long.
pub fn too_long(rt: &impl Print) -> io::Result<()> {
    let mut out = letters::page();
    let length = texts::list_too_long(&mut out);
    rt.write_all(&out[..length])
}

// What the number that a call for C answers with tells, or the number of its refusal.
pub fn told(answer: usize) -> Result<usize, u8>
    ensures { MatchResult result (λ n. answer ≡ 256 + n) (λ k. (answer ≡ k) × (answer < 256)) }
{
    match u8::try_from(answer) {
        Ok(k) => Err(k),
        Err(_) => Ok(answer - 256),
    }
}

// The number of a refusal, or so many bytes as the answer of a call for C tells of.
pub fn show(rt: &impl Print, answer: usize, out: &[u8]) -> io::Result<()> {
    match told(answer) {
        Ok(n) => out.get(..n).map_or(Ok(()), |bytes| rt.write_all(bytes)),
        Err(k) => refuse(rt, k),
    }
}
