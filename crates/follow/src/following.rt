// What follows a pulse, phase by phase.
ghost use Rattle.std.specs.Prelude.{◌≡◌};
ghost use Rattle.follow.specs.Follow.{after, after_good, after_pair, bad, onward, opened, shows};
ghost use Rattle.place.specs.declared.Phase.TheVariants.{Version};

use load::Load;
use place::{Acknowledgement, Ending, Phase, Place};
use units::Seen;

const GOOD_VERSION: u8 = 1;

// A version's bits come low bit first: each is shifted in from the top, so that eight of them are the version.
const VERSION_TOP: u8 = 128;

// The second pulse of a pair.
#[tactic(auto, using(terms::proofs::Refusals::walk), unfolding(crate::specs::Follow::after_connection))]
pub(crate) fn after_pair(place: Place, load: Load, seen: Seen) -> Place
    ensures { result ≡ after_pair load place.phase place.index seen }
{
    match place.phase {
        Phase::Connection => {
            let draw = sequence::draw(sequence::FIRST_CONNECTION_DRAW + place.index / 2);
            if shows(seen, draw) {
                onward(place, load)
            } else {
                opened(Phase::Ended(Ending::Lost))
            }
        }
        Phase::Version(version) => match seen {
            Seen::Silence => opened(Phase::Ended(Ending::Lost)),
            Seen::Zero => onward(with_version(place, version >> 1), load),
            Seen::One => onward(with_version(place, version >> 1 | VERSION_TOP), load),
        },
        Phase::Wait(awaited) => match seen {
            Seen::Silence => onward(place, load),
            Seen::Zero => opened(after_good(load.command, awaited)),
            Seen::One => opened(Phase::Ended(bad(awaited))),
        },
        _ => onward(place, load),
    }
}

// The phase's next place, or after its last the first of what follows.
#[tactic(auto, using(terms::proofs::Refusals::walk), unfolding(crate::specs::Follow::onward))]
pub(crate) fn onward(place: Place, load: Load) -> Place
    ensures { result ≡ onward load place.phase place.index }
{
    if u64::from(place.index) + 1 < u64::from(place.phase.places(load)) {
        return Place {
            index: place.index + 1,
            ..place
        };
    }
    opened(after(load, place.phase))
}

fn opened(phase: Phase) -> Place
    ensures { result ≡ opened phase }
{
    Place { phase, index: 0 }
}

#[tactic(auto, using(terms::proofs::Refusals::walk), unfolding(crate::specs::Follow::after_version, crate::specs::Follow::after_command))]
fn after(load: Load, phase: Phase) -> Phase
    ensures { result ≡ after load phase }
{
    match phase {
        Phase::Calibration => Phase::Handshake,
        Phase::Handshake => Phase::Connection,
        Phase::Connection => Phase::Version(0),
        Phase::Version(GOOD_VERSION) => Phase::Command,
        Phase::Version(_) => Phase::Zeros,
        Phase::Command if load.command == 0 => Phase::Ended(Ending::Done),
        Phase::Command => Phase::Size,
        Phase::Zeros => Phase::Ended(Ending::WrongVersion),
        Phase::Size => Phase::Image,
        Phase::Image => Phase::Wait(Acknowledgement::Ram),
        Phase::Wait(_) => Phase::Ended(Ending::Lost),
        Phase::Ended(_) => phase,
    }
}

fn shows(seen: Seen, bit: bool) -> bool
    ensures { result ≡ shows seen bit }
{
    seen == if bit { Seen::One } else { Seen::Zero }
}

fn with_version(place: Place, version: u8) -> Place
    ensures { result ≡ record { phase = Version version; index = place.index } }
{
    Place {
        phase: Phase::Version(version),
        ..place
    }
}

#[tactic(auto, using(terms::proofs::Refusals::walk), unfolding(crate::specs::Follow::after_ram))]
fn after_good(command: u32, awaited: Acknowledgement) -> Phase
    ensures { result ≡ after_good command awaited }
{
    match awaited {
        Acknowledgement::Ram if command == 1 => Phase::Ended(Ending::Done),
        Acknowledgement::Ram => Phase::Wait(Acknowledgement::Programming),
        Acknowledgement::Programming => Phase::Wait(Acknowledgement::Verification),
        Acknowledgement::Verification => Phase::Ended(Ending::Done),
    }
}

fn bad(awaited: Acknowledgement) -> Ending
    ensures { result ≡ bad awaited }
{
    match awaited {
        Acknowledgement::Ram => Ending::BadRam,
        Acknowledgement::Programming => Ending::BadProgramming,
        Acknowledgement::Verification => Ending::BadVerification,
    }
}
