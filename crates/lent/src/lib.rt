// What is read off lent bytes, whether of an image or of a memory: a word at a place, the total, and the sum of one byte.
#![tactic(auto)]

ghost use Rattle.std.specs.Prelude.{◌≡◌, ◌%◌, ◌^◌};
ghost use Rattle.lent.specs.Bytes.{word_at, total};

use units::Bytes;

// The word at byte `at`, low byte first. A byte past the end reads as 0.
#[tactic(auto, unfolding(crate::specs::Bytes::word_at))]
pub fn word(bytes: &[u8], at: Bytes) -> u16
    ensures { result ≡ word_at bytes.now at.0 }
{
    match bytes.get(at.0..) {
        Some([low, high, ..]) => u16::from_le_bytes([*low, *high]),
        Some([low]) => u16::from(*low),
        Some([]) | None => 0,
    }
}

// The sum of all bytes, modulo 256.
// It differs from `total` in its width alone. A trait over both widths would be longer than the two; what both are is one law, `added_all`.
pub fn sum(bytes: &[u8]) -> u8
    ensures { result ≡ total bytes.now % 256 }
{
    bytes.iter().fold(0u8, |sum, byte| sum.wrapping_add(*byte))
}

// The sum of all bytes, modulo 2^64.
pub fn total(bytes: &[u8]) -> u64
    ensures { result ≡ total bytes.now % 2 ^ 64 }
{
    bytes
        .iter()
        .fold(0u64, |total, byte| total.wrapping_add(u64::from(*byte)))
}
