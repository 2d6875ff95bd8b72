// Writing numbers: group after group, lowest first.
ghost use Rattle.std.specs.Prelude.{false, ◌≡◌, ◌+◌, ◌<◌, ◌≤◌, leb, length};
ghost use Rattle.std.proofs.lemmas.List.Edits.{sets};
ghost use Rattle.numbers.specs.Numbers.{groups, bound, written};
ghost use Rattle.trace.specs.Traces.{file, too_large};

use numbers::BOUND;

// Whether one of the numbers is too large.
pub(crate) fn has_large(numbers: &[u64]) -> bool
    ensures { result ≡ too_large bound numbers.now }
{
    numbers.iter().any(|number| BOUND <= *number)
}

// Whether the numbers' file has room in so many bytes.
pub(crate) fn fits(numbers: &[u64], room: usize) -> bool
    requires { too_large bound numbers.now ≡ false }
    ensures { result ≡ leb (length (file numbers.now)) room }
{
    if room == 0 {
        return false;
    }
    let mut left = room - 1;
    for number in numbers {
        let size = size(*number);
        if left < size {
            return false;
        }
        left -= size;
    }
    true
}

// How many groups a number has.
// By `while`, as in `put`: it divides, and counts no index.
fn size(number: u64) -> usize
    requires { number < bound }
    ensures { result ≡ length (written groups number) }
{
    let mut rest = number;
    let mut size = 1;
    while 128 <= rest {
        rest /= 128;
        size += 1;
    }
    size
}

// Writes the numbers' file, and answers its length.
pub(crate) fn put_all(numbers: &[u64], buffer: &mut [u8]) -> usize
    requires { (too_large bound numbers.now ≡ false) × (length (file numbers.now) ≤ length buffer.old) }
    ensures { (result ≡ length (file numbers.now)) × (buffer.new ≡ sets buffer.old 0 (file numbers.now)) }
{
    buffer[0] = 1;
    let mut at = 1;
    for number in numbers {
        at = put(*number, buffer, at);
    }
    at
}

// Writes a number at a place, and answers the place after it.
fn put(number: u64, buffer: &mut [u8], at: usize) -> usize
    requires { (number < bound) × (at + length (written groups number) ≤ length buffer.old) }
    ensures { (result ≡ at + length (written groups number)) × (buffer.new ≡ sets buffer.old at (written groups number)) }
{
    let mut rest = number;
    let mut next = at;
    while 128 <= rest {
        buffer[next] = (rest % 128 + 128) as u8;
        rest /= 128;
        next += 1;
    }
    buffer[next] = rest as u8;
    next + 1
}
