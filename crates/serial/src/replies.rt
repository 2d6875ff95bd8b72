// What comes back for a byte, and where it counts.
ghost use Rattle.std.specs.Prelude.{◌≡◌};
ghost use Rattle.serial.specs.Phases.{pending, awaits};
ghost use Rattle.serial.specs.Replies.{came, neither, resumed, wrong_reply};

use load::Load;
use place::{Carries, Phase, Place};
use units::Seen;

const ZERO: u8 = 0xfe;

const ONE: u8 = 0xff;

// The place from which the next byte is filled: a pair's second pulse is behind it, with what came back for the pair.
#[tactic(auto, using(terms::proofs::Refusals::walk), unfolding(crate::specs::Replies::resumed))]
pub(crate) fn resumed(place: Place, load: Load, back: Option<u8>) -> Place
    ensures { result ≡ resumed load place.phase place.index (came back) }
{
    if is_pending(place) {
        return follow::next(place, load, came(back));
    }
    place
}

#[tactic(auto, using(terms::proofs::Refusals::walk), unfolding(crate::specs::Replies::wrong_reply))]
pub(crate) fn is_wrong(place: Place, back: Option<u8>) -> bool
    ensures { result ≡ wrong_reply place.phase place.index back }
{
    awaits(place) && is_neither(back)
}

#[tactic(auto, using(terms::proofs::Refusals::walk), unfolding(crate::specs::Phases::pending))]
fn is_pending(place: Place) -> bool
    ensures { result ≡ pending place.phase place.index }
{
    place.phase.carries() == Carries::Pairs && !bits::pair_bit(place.index)
}

#[tactic(auto, using(terms::proofs::Refusals::walk), unfolding(crate::specs::Phases::awaits))]
pub(crate) fn awaits(place: Place) -> bool
    ensures { result ≡ awaits place.phase place.index }
{
    matches!(
        place.phase,
        Phase::Connection | Phase::Version(_) | Phase::Wait(_)
    ) && !bits::pair_bit(place.index)
}

#[tactic(auto, using(terms::proofs::Refusals::walk), unfolding(crate::specs::Replies::seen_in))]
fn came(back: Option<u8>) -> Seen
    ensures { result ≡ came back }
{
    match back {
        None => Seen::Silence,
        Some(ZERO) => Seen::Zero,
        Some(_) => Seen::One,
    }
}

#[tactic(auto, using(terms::proofs::Refusals::walk), unfolding(crate::specs::Replies::other))]
fn is_neither(back: Option<u8>) -> bool
    ensures { result ≡ neither back }
{
    match back {
        None => false,
        Some(byte) => byte != ZERO && byte != ONE,
    }
}
