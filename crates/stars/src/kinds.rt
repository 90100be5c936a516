// Kinds: 0 above, 1 to the left, 2 below, 3 to the right.
// Numbers and no enum: a held star may carry any byte as a kind, and constant arrays over them are asked for by name.
ghost use Rattle.std.specs.Prelude.{◌≡◌};
ghost use Rattle.floor.specs.Jobs.{opposite, frame_kind};

const OPPOSITE: [u8; 4] = [2, 3, 0, 1];

const FRAME_KIND: [u8; 4] = [0, 1, 2, 3];

// The opposite of a kind; 0 for a number that is none.
pub fn opposite_of(kind: u8) -> u8
    ensures { result ≡ opposite kind }
{
    let k = usize::from(kind);
    if k < 4 { OPPOSITE[k] } else { 0 }
}

// The one kind of a frame side; 0 for a number that is none.
pub fn side_kind(side: usize) -> u8
    ensures { result ≡ frame_kind side }
{
    if side < 4 { FRAME_KIND[side] } else { 0 }
}
