// The session as serial bytes: a start, and one byte a step.
#![tactic(auto)]

ghost use Rattle.std.specs.Prelude.{◌≡◌};
ghost use Rattle.terms.specs.Refusals.{told};
ghost use Rattle.place.specs.Endings.{end_at, told_end};
ghost use Rattle.serial.specs.Phases.{awaits};
ghost use Rattle.serial.specs.Step.{serial_start, serial_step, turn_of, turn_at};

mod ranges;
mod replies;

use load::Load;
use packing::Packing;
use place::{Ending, Phase, Place};
use terms::Refusal;

// A serial session: what it loads, where it is, and its packing, which stands last because the padding after it would be copied at every
// step. After a pair's byte it stands at the pair's second pulse: what comes back for the byte decides what follows.
#[derive(Clone, Copy, PartialEq, Eq, Debug)]
pub struct Serial {
    pub load: Load,
    pub place: Place,
    pub packing: Packing,
}

// What a call sends, and the session after it. It sends nothing where what came back ended the session.
#[derive(Clone, Copy, PartialEq, Eq, Debug)]
pub struct Turn {
    pub sent: Option<u8>,
    pub serial: Serial,
}

impl Serial {
    // The session before its first byte, or the first of the load's refusals that applies.
    #[tactic(auto, using(crate::proofs::Starts::start_refused, crate::proofs::Starts::start_taken))]
    pub fn start(packing: Packing, command: u32, image: &[u8]) -> Result<Serial, Refusal>
        ensures { told result ≡ serial_start packing command image.now }
    {
        let load = Load::new(command, image)?;
        Ok(Serial {
            packing,
            load,
            place: Place {
                phase: Phase::Calibration,
                index: 0,
            },
        })
    }

    // The next byte, or none where what came back ends the session; or a refusal: of a record out of its ranges, of one that has ended,
    // of a reply that is neither $FE nor $FF, of an image of another length than at the start. `back` is the byte that came back for the
    // one before, if any did.
    #[tactic(auto, using(terms::proofs::Refusals::walk), unfolding(crate::specs::Step::serial_step))]
    pub fn step(self, image: &[u8], back: Option<u8>) -> Result<Turn, Refusal>
        ensures { told result ≡ serial_step self image.now back }
    {
        if ranges::is_outside(self.load, self.place) {
            return Err(Refusal::Record);
        }
        if self.place.has_ended() {
            return Err(Refusal::Ended);
        }
        if replies::is_wrong(self.place, back) {
            return Err(Refusal::Reply);
        }
        if self.load.is_other_image(image) {
            return Err(Refusal::Length);
        }
        Ok(self.turn(image, back))
    }

    // Whether the next step looks at what came back: after a pair of the connection, of the version or of a wait.
    pub fn awaits_reply(self) -> bool
        ensures { result ≡ awaits self.place.phase self.place.index }
    {
        replies::awaits(self.place)
    }

    // How the session has ended; none while it goes on.
    pub fn end(self) -> Option<Ending>
        ensures { told_end result ≡ end_at self.place.phase }
    {
        self.place.phase.end()
    }

    #[tactic(auto, unfolding(crate::specs::Step::turn_of))]
    fn turn(self, image: &[u8], back: Option<u8>) -> Turn
        ensures { result ≡ turn_of self image.now back }
    {
        self.turn_at(image, replies::resumed(self.place, self.load, back))
    }

    #[tactic(auto, using(terms::proofs::Refusals::walk), unfolding(crate::specs::Step::turn_at))]
    fn turn_at(self, image: &[u8], place: Place) -> Turn
        ensures { result ≡ turn_at self image.now place.phase place.index }
    {
        if place.has_ended() {
            return Turn {
                sent: None,
                serial: Serial { place, ..self },
            };
        }
        let filling = packing::sent_at(self.packing, self.load, image, place);
        Turn {
            sent: Some(filling.frame.byte()),
            serial: Serial {
                place: filling.place,
                ..self
            },
        }
    }
}
