// The session that a host sends, without time: what it loads, where it stands, and what it has sent.
#![tactic(auto)]

ghost use Rattle.std.specs.Prelude.{◌≡◌, false};
ghost use Rattle.terms.specs.Refusals.{told};
ghost use Rattle.session.specs.Ranges.{session_outside};
ghost use Rattle.session.specs.Step.{counted, session_start, session_step};

mod ranges;

use load::Load;
use place::{Phase, Place};
use terms::Refusal;
use units::Seen;

// A session: what it loads, where it is, and the numbers of pulses, ones and zeros sent.
#[derive(Clone, Copy)]
pub struct Session {
    pub load: Load,
    pub place: Place,
    pub pulses: u32,
    pub ones: u32,
    pub zeros: u32,
}

// A pulse sent: its bit, whether it ends a silent pair of a wait, and the session after it.
#[derive(Clone, Copy)]
pub struct Pulse {
    pub bit: bool,
    pub silent: bool,
    pub session: Session,
}

impl Session {
    // The session before its first pulse, or the first of refusals 4 to 9 that applies.
    #[tactic(auto, using(crate::proofs::Starts::start_refused, crate::proofs::Starts::start_taken))]
    pub fn start(command: u32, image: &[u8]) -> Result<Session, Refusal>
        ensures { told result ≡ session_start command image.now }
    {
        Ok(Session {
            load: Load::new(command, image)?,
            place: Place {
                phase: Phase::Calibration,
                index: 0,
            },
            pulses: 0,
            ones: 0,
            zeros: 0,
        })
    }

    // The next pulse of the session, or a refusal: 13 for a record out of its ranges, 14 for one that has ended, 5 for an image of
    // another length than at the start. `seen` is what was seen around the pulse before.
    #[tactic(auto, using(terms::proofs::Refusals::walk), unfolding(crate::specs::Step::session_step))]
    pub fn step(self, image: &[u8], seen: Seen) -> Result<Pulse, Refusal>
        ensures { told result ≡ session_step self image.now seen }
    {
        if self.is_outside() {
            return Err(Refusal::Record);
        }
        if self.place.has_ended() {
            return Err(Refusal::Ended);
        }
        if self.load.is_other_image(image) {
            return Err(Refusal::Length);
        }
        let bit = bits::bit(self.place, self.load, image);
        let next = follow::next(self.place, self.load, seen);
        Ok(Pulse {
            bit,
            silent: follow::ends_silent_pair(self.place, seen),
            session: self.counted(next, bit),
        })
    }

    // After a pulse of this bit, at the next place.
    #[tactic(auto, using(crate::proofs::Within::all_counted, crate::proofs::Within::pulses_most), unfolding(terms::specs::Choice::when))]
    fn counted(mut self, place: Place, bit: bool) -> Session
        requires { session_outside self ≡ false }
        ensures { result ≡ counted self place bit }
    {
        self.place = place;
        self.pulses += 1;
        self.ones += u32::from(bit);
        self.zeros += u32::from(!bit);
        self
    }
}
