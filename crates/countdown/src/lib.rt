// A chip's countdown: what draws on it, and where it is set again.
#![tactic(auto)]

ghost use Rattle.std.specs.Prelude.{◌≡◌};
ghost use Rattle.countdown.specs.Countdown.{aligns, anew, counting, drawn, left_outside, most_left};

use phases::Phase;
use units::Loops;

// For calibration and handshake together.
pub const FIRST_BUDGET: Loops = Loops(375_000);

// For each 32-bit value, each alignment and each reply.
const BUDGET: Loops = Loops(250_000);

// What a wait and a low leave of it. Where that is nothing the pulse times out: their total reaches what was left. It may be longer than 32
// bits, so that it is not added up.
pub fn drawn(left: Loops, wait: Loops, low: Loops) -> Loops
    ensures { result.0 ≡ drawn left.0 wait.0 low.0 }
{
    Loops(left.0.saturating_sub(wait.0).saturating_sub(low.0))
}

// What is left before the next pulse, by the phase that a pulse was heard in and the one that it leads to.
pub fn counting(from: Phase, to: Phase, left: Loops) -> Loops
    ensures { result.0 ≡ counting from to left.0 }
{
    match to {
        Phase::Answer(_) => BUDGET,
        Phase::Command(bits, _) | Phase::Size(bits, _) => anew(bits == 0, left),
        Phase::Long(bits, _, _) => anew(bits == 0, left),
        Phase::Align(_) => anew(!aligns(from), left),
        _ => left,
    }
}

#[tactic(auto, unfolding(terms::specs::Choice::when, crate::specs::Countdown::anew))]
fn anew(starts: bool, left: Loops) -> Loops
    ensures { result.0 ≡ anew starts left.0 }
{
    if starts { BUDGET } else { left }
}

fn aligns(phase: Phase) -> bool
    ensures { result ≡ aligns phase }
{
    matches!(phase, Phase::Align(_))
}

// Whether no chip in this phase has so much left.
#[tactic(auto, unfolding(terms::specs::Choice::either, crate::specs::Countdown::left_outside))]
pub fn is_outside(phase: Phase, left: Loops) -> bool
    ensures { result ≡ left_outside phase left.0 }
{
    left == Loops(0) || most_left(phase) < left
}

fn most_left(phase: Phase) -> Loops
    ensures { result.0 ≡ most_left phase }
{
    match phase {
        Phase::First | Phase::Handshake(_) | Phase::Ended(_) => FIRST_BUDGET,
        Phase::Second(first) => drawn(FIRST_BUDGET, Loops(0), first),
        _ => BUDGET,
    }
}
