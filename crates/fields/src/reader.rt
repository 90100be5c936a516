// The reader: some bytes and a place in them. It is thin: the work is `field_at`'s.
ghost use Rattle.std.specs.Prelude.{◌≡◌, length, drop};
ghost use Rattle.floor.specs.Fields.{read_field};
ghost use Rattle.fields.specs.Found.{found, Stands};

use crate::Field;

// The bytes of a job and a place in them.
#[derive(Clone, Copy)]
pub struct Reader<'a> {
    pub bytes: &'a [u8],
    pub place: usize,
}

// A reader at a place of some bytes.
pub fn start<'a>(bytes: &'a [u8], place: usize) -> Reader<'a>
    ensures { (result.bytes ≡ bytes.entry) × (result.place ≡ place) }
{
    Reader { bytes, place }
}

// The field at the reader's place.
pub fn next<'a>(r: Reader<'a>) -> Option<Field>
    ensures { (found result r.entry.bytes.now ≡ read_field (drop r.entry.place r.entry.bytes.now)) × Stands result r.entry.place (length r.entry.bytes.now) }
{
    crate::field_at(r.bytes, r.place)
}

// The field at a place of some bytes, by a reader.
pub fn read_at(s: &[u8], at: usize) -> Option<Field>
    ensures { (found result s.now ≡ read_field (drop at s.now)) × Stands result at (length s.now) }
{
    next(start(s, at))
}
