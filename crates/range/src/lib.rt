// The range of a place: whether a load's session has it, and how many pulses can come before it.
#![tactic(auto)]

ghost use Rattle.std.specs.Prelude.{◌≡◌, ◌+◌};
ghost use Rattle.range.specs.Ranges.{before, place_outside};

mod before;
mod least;

use load::Load;
use place::{Phase, Place};

// Whether the load's session has no such place. The arms are alike: in each the compiler knows the phase, and both tables by it
// (docs/SPEED.md).
pub fn is_outside(place: Place, load: Load) -> bool
    ensures { result ≡ place_outside load place.phase place.index }
{
    match place.phase {
        Phase::Calibration => lacks(load, place),
        Phase::Handshake => lacks(load, place),
        Phase::Connection => lacks(load, place),
        Phase::Version(_) => lacks(load, place),
        Phase::Command => lacks(load, place),
        Phase::Zeros => lacks(load, place),
        Phase::Size => lacks(load, place),
        Phase::Image => lacks(load, place),
        Phase::Wait(_) => lacks(load, place),
        Phase::Ended(_) => lacks(load, place),
    }
}

#[tactic(auto, using(terms::proofs::Refusals::walk), unfolding(crate::specs::Ranges::place_outside))]
fn lacks(load: Load, place: Place) -> bool
    ensures { result ≡ place_outside load place.phase place.index }
{
    load.command < least::command(place.phase) || place.phase.places(load) <= place.index
}

// The most pulses that a load's session can have sent before this place.
pub fn pulses_before(place: Place, load: Load) -> u64
    ensures { result ≡ before load place.phase + place.index }
{
    u64::from(before::pulses(load, place.phase)) + u64::from(place.index)
}
