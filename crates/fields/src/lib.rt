// Fields: one tag byte, a two-byte length (high byte first), then the value, read and written at any place of some bytes.
#![tactic(auto)]

ghost use Rattle.std.specs.Prelude.{◌≡◌, ◌+◌, ◌*◌, ◌-◌, ◌<◌, length, get_or, drop};
ghost use Rattle.floor.specs.Fields.{read_field, value_of, rest_of};
ghost use Rattle.fields.specs.Found.{found, Stands, with_head};

pub mod reader; // reader.rt: the reader of a job's fields

// A whole field: its tag, and where its value starts and ends.
#[derive(Clone, Copy, PartialEq, Eq)]
pub struct Field {
    pub tag: u8,
    pub start: usize,
    pub end: usize,
}

// The two-byte number at a place, high byte first.
fn word_at(s: &[u8], at: usize) -> usize
    requires { at + 1 < length s.now }
    ensures { (result ≡ 256 * get_or s.now at 0 + get_or s.now (at + 1) 0) × (result < 65536) }
{
    256 * usize::from(s[at]) + usize::from(s[at + 1])
}

// The field at a place of the bytes: the work behind the reader.
fn field_at(s: &[u8], at: usize) -> Option<Field>
    ensures { (found result s.now ≡ read_field (drop at s.now)) × Stands result at (length s.now) }
{
    if s.len() < at {
        return None;
    }
    if s.len() - at < 3 {
        return None;
    }
    let n = word_at(s, at + 1);
    let start = at + 3;
    if s.len() - start < n {
        return None;
    }
    Some(Field {
        tag: s[at],
        start,
        end: start + n,
    })
}

// The very bytes of the value of the field at a place; none where no whole field stands there.
pub fn value_at(s: &[u8], at: usize) -> &[u8]
    ensures { result.now ≡ value_of (read_field (drop at s.now)) }
{
    match reader::read_at(s, at) {
        None => &s[..0],
        Some(field) => &s[field.start..field.end],
    }
}

// The place behind the field at a place; the end of the bytes where no whole field stands there.
pub fn after_at(s: &[u8], at: usize) -> usize
    ensures { result ≡ length s.now - length (rest_of (read_field (drop at s.now))) }
{
    match reader::read_at(s, at) {
        None => s.len(),
        Some(field) => field.end,
    }
}

// The head of a field, its tag and the length of its value, put at a place; nothing is touched where it does not fit.
pub fn put_head(out: &mut [u8], at: usize, tag: u8, len: u16)
    ensures { out.new ≡ with_head out.old at tag len }
{
    if out.len() < at {
        return;
    }
    if out.len() - at < 3 {
        return;
    }
    out[at] = tag;
    out[at + 1] = (len / 256) as u8;
    out[at + 2] = (len % 256) as u8;
}
