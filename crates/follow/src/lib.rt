// What follows a pulse: the next place, the endings, and the silent pairs of a wait.
#![tactic(auto)]

ghost use Rattle.std.specs.Prelude.{◌≡◌};
ghost use Rattle.follow.specs.Follow.{ends_silent_pair, next, onward};

mod following;

use load::Load;
use place::{Phase, Place};
use units::Seen;

// The place after the pulse at `place`. What was seen around the pulse before it, `seen`, counts only where this one is a pair's second.
// Some arms are alike: in each the compiler knows the phase (docs/SPEED.md). `place` and `load` go apart, as in `bits` and `range`: the records
// above hold each by itself, and a struct of both would be made anew at every pulse.
#[tactic(auto, using(crate::proofs::Unseen::unseen))]
pub fn next(place: Place, load: Load, seen: Seen) -> Place
    ensures { result ≡ next load place.phase place.index seen }
{
    match place.phase {
        Phase::Calibration => following::onward(place, load),
        Phase::Handshake => following::onward(place, load),
        Phase::Connection => of_pair(place, load, seen),
        Phase::Version(_) => of_pair(place, load, seen),
        Phase::Command => following::onward(place, load),
        Phase::Zeros => following::onward(place, load),
        Phase::Size => following::onward(place, load),
        Phase::Image => following::onward(place, load),
        Phase::Wait(_) => of_pair(place, load, seen),
        Phase::Ended(_) => following::onward(place, load),
    }
}

// A pulse of a pair: what was seen counts at the second.
#[tactic(auto, using(terms::proofs::Refusals::walk), unfolding(crate::specs::Follow::next))]
fn of_pair(at: Place, load: Load, seen: Seen) -> Place
    ensures { result ≡ next load at.phase at.index seen }
{
    if bits::pair_bit(at.index) {
        return following::onward(at, load);
    }
    following::after_pair(at, load, seen)
}

// The place after the pulse at `place`, where what was seen does not count: the phase's next, or after its last the first of what follows.
pub fn onward(place: Place, load: Load) -> Place
    ensures { result ≡ onward load place.phase place.index }
{
    following::onward(place, load)
}

// Whether the pulse at a place ends a silent pair of a wait.
#[tactic(auto, using(terms::proofs::Refusals::walk), unfolding(crate::specs::Follow::ends_silent))]
pub fn ends_silent_pair(place: Place, seen: Seen) -> bool
    ensures { result ≡ ends_silent_pair place.phase place.index seen }
{
    matches!(place.phase, Phase::Wait(_)) && !bits::pair_bit(place.index) && seen == Seen::Silence
}
