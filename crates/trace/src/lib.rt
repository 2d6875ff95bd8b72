// Trace files: the number 1, then the waits and lows of pulses by turns, in loops.
#![tactic(auto)]

ghost use Rattle.std.specs.Prelude.{false, ◌≡◌, length, ◌≤◌};
ghost use Rattle.terms.specs.Refusals.{told};
ghost use Rattle.trace.specs.Traces.{judgement, left, numbers_of, told_wrote, verdict, writes};

mod writing;

use terms::Refusal;
use units::Bytes;

// Judges a whole file: the first of refusals 17 to 19 that applies, or that it is good.
pub fn judge(trace: &[u8]) -> Result<(), Refusal>
    ensures { told result ≡ judgement trace.now }
{
    if trace.is_empty() || trace[0] != 1 {
        return Err(Refusal::Mark);
    }
    pairs(trace)
}

// Judges what follows a file's mark.
// By `while`: a step is as long as the number that was read.
fn pairs(trace: &[u8]) -> Result<(), Refusal>
    requires { 1 ≤ length trace.now }
    ensures { told result ≡ verdict false (numbers_of trace.now) }
{
    let mut at = 1;
    let mut waits = false;
    while at < trace.len() {
        let Ok(number) = reader::read(trace, Bytes(at)) else {
            return Err(Refusal::Number);
        };
        at = number.next.0;
        waits = !waits;
    }
    if waits {
        return Err(Refusal::LoneWait);
    }
    Ok(())
}

// Writes the file of some waits and lows into a lent buffer, or refuses by 18, 19 or 27. Bytes past the file stay, and so does
// the whole buffer where it refuses.
pub fn write(numbers: &[u64], buffer: &mut [u8]) -> Result<Bytes, Refusal>
    ensures { left (told_wrote result) buffer.new ≡ writes numbers.now buffer.old }
{
    if writing::has_large(numbers) {
        return Err(Refusal::Number);
    }
    if numbers.len() % 2 != 0 {
        return Err(Refusal::LoneWait);
    }
    if !writing::fits(numbers, buffer.len()) {
        return Err(Refusal::Room);
    }
    Ok(Bytes(writing::put_all(numbers, buffer)))
}
