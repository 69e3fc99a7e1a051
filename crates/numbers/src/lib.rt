// Big-endian numbers in bytes: the number at an offset of a slice, and a number's bytes stored at an offset.
#![tactic(auto)]

ghost use Rattle.std.specs.Prelude.{◌≡◌, ◌+◌, ◌*◌, ◌^◌, ◌≤◌, ◌<◌, length};
ghost use Rattle.std.proofs.lemmas.List.Edits.{sets as stored};
ghost use Rattle.numbers.specs.Bytes.{part, number_at, bytes_of, AreBytes};

// The number in four bytes, and in eight. What was read was bytes. Kept as two functions: one over the width would first copy the bytes
// into an array of eight, and each of these is one expression.
pub fn four(bytes: &[u8], at: usize) -> u64
    requires { at + 4 ≤ length bytes.now }
    ensures { (result ≡ number_at at 4 bytes.now) × (result < 256 ^ 4) × AreBytes (part at 4 bytes.now) }
{
    u64::from(u32::from_be_bytes(bytes[at..at + 4].try_into().unwrap()))
}

pub fn eight(bytes: &[u8], at: usize) -> u64
    requires { at + 8 ≤ length bytes.now }
    ensures { (result ≡ number_at at 8 bytes.now) × AreBytes (part at 8 bytes.now) }
{
    u64::from_be_bytes(bytes[at..at + 8].try_into().unwrap())
}

// The last N bytes of a number, stored at an offset. Buffer and offset are kept apart, as in `line`.
pub fn put<const N: usize>(out: &mut [u8], at: usize, x: u64)
    requires fits { N ≤ 8 }
    requires at_in_bounds { at + N ≤ length out.old }
    ensures { out.new ≡ stored out.old at (bytes_of N x) }
{
    out[at..at + N].copy_from_slice(&x.to_be_bytes()[8 - N..]);
}
