// The fingerprint of a job's bytes: the number that POSIX's `cksum FILE` prints first, a CRC of 32 bits over the bytes and their count.
ghost use Rattle.std.specs.Prelude.{◌≤◌};

// What is taken off where a bit falls out at the top.
const POLYNOMIAL: u32 = 0x04c1_1db7;

// One bit further.
fn shifted(crc: u32) -> u32 {
    if crc >> 31 == 0 {
        return crc << 1;
    }
    (crc << 1) ^ POLYNOMIAL
}

// A byte further.
fn fed(crc: u32, byte: u8) -> u32 {
    (0..8).fold(crc ^ (u32::from(byte) << 24), |crc, _| shifted(crc))
}

// The fingerprint of some bytes: they are fed, then their count, low byte first, as far as it goes.
pub fn fingerprint(bytes: &[u8]) -> u32 {
    let mut crc = bytes.iter().fold(0, |crc, &byte| fed(crc, byte));
    let mut count = bytes.len();
    // No `for`: how many bytes the count has shows only as they are taken off.
    while count != 0 {
        crc = fed(crc, (count & 0xff) as u8);
        count >>= 8;
    }
    !crc
}
