// Numbers of a trace: groups of seven bits, the lowest first, the top bit set where more follow, in their shortest form.
#![tactic(auto)]

ghost use Rattle.std.specs.Prelude.{◌≡◌};
ghost use Rattle.numbers.specs.Numbers.{groups, bound, limited, number_at};

use units::Bytes;

// The most groups of a number.
pub const GROUPS: u32 = 5;

// Numbers are below this.
pub const BOUND: u64 = 4_294_967_296;

// A number, and the place after it.
#[derive(Clone, Copy, PartialEq, Eq, Debug)]
pub struct Number {
    pub value: u64,
    pub next: Bytes,
}

// Why a place has no number: nothing more stands there, or no good one.
#[derive(Clone, Copy, PartialEq, Eq, Debug)]
pub enum NoNumber {
    End,
    Bad,
}

// The number at a place of a trace. At its end and past it nothing stands.
pub fn number_at(trace: &[u8], at: Bytes) -> Result<Number, NoNumber>
    ensures { result ≡ number_at groups bound trace.now at.0 }
{
    let at = at.0;
    if trace.len() <= at {
        return Err(NoNumber::End);
    }
    let first = u64::from(trace[at]);
    if first < 128 {
        return below(first, at + 1);
    }
    let mut value = first - 128;
    let mut scale = 128;
    for next in at + 1..trace.len().min(at + GROUPS as usize) {
        let group = u64::from(trace[next]);
        if group == 0 {
            return Err(NoNumber::Bad);
        }
        if group < 128 {
            return below(value + group * scale, next + 1);
        }
        value += (group - 128) * scale;
        scale *= 128;
    }
    Err(NoNumber::Bad)
}

// A number that was read, unless it is too large.
#[tactic(auto, unfolding(terms::specs::Choice::when))]
fn below(value: u64, next: usize) -> Result<Number, NoNumber>
    ensures { result ≡ limited bound value next }
{
    if BOUND <= value {
        return Err(NoNumber::Bad);
    }
    Ok(Number {
        value,
        next: Bytes(next),
    })
}
