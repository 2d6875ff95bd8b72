// What finishes a load in RAM: zeros, the flag longs, and the sum of all bytes.
ghost use Rattle.std.specs.Prelude.{◌≡◌, ◌%◌, take};
ghost use Rattle.lent.specs.Bytes.{total};
ghost use Rattle.ram.specs.Ram.{flag_at, flag_stored, flagged, zeroed};

use crate::store;
use units::Bytes;

// The bytes FF FF F9 FF, as a long.
const FLAGS: u32 = 0xFFF9_FFFF;

// Their sum, modulo 256.
const FLAGS_SUM: u8 = 246;

// The word D at this place says where the flag longs are stored.
const STACK_AT: Bytes = Bytes(10);

#[tactic(auto, unfolding(crate::specs::Ram::zeroed))]
pub(crate) fn zero_from(ram: &mut [u8], from: usize)
    ensures { ram.new ≡ zeroed from ram.old }
{
    if from < ram.len() {
        ram[from..].fill(0);
    }
}

// The sum of the bytes before an address.
pub(crate) fn sum_before(ram: &[u8], end: usize) -> u8
    ensures { result ≡ total (take end ram.now) % 256 }
{
    lent::sum(ram.get(..end).unwrap_or(ram))
}

// The flag longs below D, which is read before the first of them is stored. The sum of all bytes comes, and goes as it is then.
#[tactic(auto, unfolding(crate::specs::Ram::flagged))]
pub(crate) fn store_both(ram: &mut [u8], sum: u8) -> u8
    requires { sum ≡ total ram.old % 256 }
    ensures ram_after { ram.new ≡ flagged ram.old }
    ensures value { result ≡ total ram.new % 256 }
{
    let d = lent::word(ram, STACK_AT);
    let sum = store_flag(ram, flag_at(d, 4), sum);
    store_flag(ram, flag_at(d, 8), sum)
}

// So far below D, modulo 65,536, with the two lowest bits dropped.
fn flag_at(d: u16, below: u16) -> u16
    ensures { result ≡ flag_at d below }
{
    d.wrapping_sub(below) >> 2 << 2
}

// A flag long at an address; nothing at 32,768 or above. It changes the sum by what it stores less what stood there.
#[tactic(auto, using(crate::proofs::Sums::flag_high, crate::proofs::Sums::flag_past, crate::proofs::Sums::flag_low, crate::proofs::Sums::sum_changes))]
fn store_flag(ram: &mut [u8], at: u16, sum: u8) -> u8
    requires { sum ≡ total ram.old % 256 }
    ensures ram_after { ram.new ≡ flag_stored at ram.old }
    ensures value { result ≡ total ram.new % 256 }
{
    let from = usize::from(at);
    let to = from + 4;
    if Bytes::MEMORY.0 <= from || ram.len() < to {
        return sum;
    }
    let old = lent::sum(&ram[from..to]);
    store(ram, Bytes(from), FLAGS);
    sum.wrapping_sub(old).wrapping_add(FLAGS_SUM)
}
