// What a load makes of RAM, which is lent: longs stored, the rest zeroed, the flag longs and the checksum; and the launch test.
#![tactic(auto)]

ghost use Rattle.std.specs.Prelude.{◌≡◌};
ghost use Rattle.ram.specs.Ram.{finished, launches, stored, sums_to_zero};

mod flags;

use units::Bytes;

// The word at `ORIGIN_AT` tells a launch from a shut-down.
const ORIGIN_AT: Bytes = Bytes(6);

const ORIGIN: u16 = 16;

// Stores a long at an address, low byte first; nothing where it does not fit.
#[tactic(auto, using(crate::proofs::Stored::stored_whole, crate::proofs::Stored::stored_past))]
pub fn store(ram: &mut [u8], at: Bytes, value: u32)
    ensures { ram.new ≡ stored at.0 value ram.old }
{
    if let Some(end) = at.0.checked_add(4)
        && end <= ram.len()
    {
        ram[at.0..end].copy_from_slice(&value.to_le_bytes());
    }
}

// Finishes a load whose longs end at `end`: zeroes the rest, stores the flag longs, and says whether the checksum is good. The zeros are
// not read for that: they add nothing.
#[tactic(auto, using(crate::proofs::Sums::zeroed_sum))]
pub fn finish(ram: &mut [u8], end: Bytes) -> bool
    ensures ram_after { ram.new ≡ finished end.0 ram.old }
    ensures value { result ≡ sums_to_zero (finished end.0 ram.old) }
{
    let sum = flags::sum_before(ram, end.0);
    flags::zero_from(ram, end.0);
    flags::store_both(ram, sum) == 0
}

// Whether the RAM launches: the word at 6 is 16.
pub fn is_launchable(ram: &[u8]) -> bool
    ensures { result ≡ launches ram.now }
{
    lent::word(ram, ORIGIN_AT) == ORIGIN
}
