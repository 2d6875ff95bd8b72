// The ticks of a session's ten phases. A phase runs from its first fall to the next phase's first fall, and the last one so far to the last
// rise, so that the ten add up to the tick of the last rise.
#![tactic(auto)]

ghost use Rattle.std.specs.Prelude.{◌≡◌, ◌-◌};
ghost use Rattle.ticks.specs.Ticks.{added, more, phase_number, spacer_before, told_spacer, with_pulse};

use place::{Acknowledgement, Phase, Place};
use units::Ticks;

// The ticks of each phase so far, in the order in which they come; 0 for one that was not reached. The 32 zeros after a wrong version are
// of the command, and the last three are the acknowledgements.
// Ten fields, as in `counts::Plan`, which says why they are not one generic record.
#[derive(Clone, Copy)]
pub struct PhaseTicks {
    pub calibration: Ticks,
    pub handshake: Ticks,
    pub connection: Ticks,
    pub version: Ticks,
    pub command: Ticks,
    pub size: Ticks,
    pub image: Ticks,
    pub ram: Ticks,
    pub programming: Ticks,
    pub verification: Ticks,
}

impl PhaseTicks {
    // Before the first pulse.
    pub const NONE: PhaseTicks = PhaseTicks {
        calibration: Ticks(0),
        handshake: Ticks(0),
        connection: Ticks(0),
        version: Ticks(0),
        command: Ticks(0),
        size: Ticks(0),
        image: Ticks(0),
        ram: Ticks(0),
        programming: Ticks(0),
        verification: Ticks(0),
    };

    // The spacer before a fall: the ticks from the last rise, which the ten add up to; none where they add up past the fall. Each is taken
    // away in turn, since their sum need not fit.
    #[tactic(auto, using(terms::proofs::Refusals::walk), unfolding(crate::specs::Ticks::rest_of, crate::specs::Ticks::sum, lent::specs::Bytes::total))]
    pub fn spacer_before(self, fall: Ticks) -> Option<Ticks>
        ensures { told_spacer result ≡ spacer_before self fall.0 }
    {
        let left = fall
            .0
            .checked_sub(self.calibration.0)?
            .checked_sub(self.handshake.0)?
            .checked_sub(self.connection.0)?
            .checked_sub(self.version.0)?
            .checked_sub(self.command.0)?
            .checked_sub(self.size.0)?
            .checked_sub(self.image.0)?
            .checked_sub(self.ram.0)?
            .checked_sub(self.programming.0)?
            .checked_sub(self.verification.0)?;
        Some(Ticks(left))
    }

    // The ten after a pulse that is sent at a place, with the ticks of the spacer before it and of its low. Of a sum that does not fit
    // 64 bits the lowest are kept; in a host's record every one fits.
    #[tactic(auto, using(terms::proofs::Refusals::walk), unfolding(crate::specs::Ticks::holder))]
    pub fn with_pulse(self, place: Place, spacer: Ticks, low: Ticks) -> PhaseTicks
        ensures { result ≡ with_pulse self place.phase place.index spacer.0 low.0 }
    {
        if place.index == 0 {
            return self
                .added(before(place.phase), spacer)
                .added(place.phase, low);
        }
        self.added(place.phase, spacer).added(place.phase, low)
    }

    // More ticks for a phase.
    #[tactic(auto, unfolding(crate::specs::Ticks::added, terms::specs::Choice::when))]
    fn added(mut self, phase: Phase, ticks: Ticks) -> PhaseTicks
        ensures { result ≡ added self (phase_number phase) ticks.0 }
    {
        match phase {
            Phase::Calibration => self.calibration = more(self.calibration, ticks),
            Phase::Handshake => self.handshake = more(self.handshake, ticks),
            Phase::Connection => self.connection = more(self.connection, ticks),
            Phase::Version(_) => self.version = more(self.version, ticks),
            Phase::Command | Phase::Zeros => self.command = more(self.command, ticks),
            Phase::Size => self.size = more(self.size, ticks),
            Phase::Image => self.image = more(self.image, ticks),
            Phase::Wait(Acknowledgement::Ram) => self.ram = more(self.ram, ticks),
            Phase::Wait(Acknowledgement::Programming) => self.programming = more(
                self.programming,
                ticks,
            ),
            Phase::Wait(Acknowledgement::Verification) => self.verification = more(
                self.verification,
                ticks,
            ),
            Phase::Ended(_) => {}
        }
        self
    }
}

// The phase before one; of calibration, which is the first, itself.
fn before(phase: Phase) -> Phase
    ensures { phase_number result ≡ phase_number phase - 1 }
{
    match phase {
        Phase::Calibration | Phase::Handshake => Phase::Calibration,
        Phase::Connection => Phase::Handshake,
        Phase::Version(_) => Phase::Connection,
        Phase::Command | Phase::Zeros => Phase::Version(0),
        Phase::Size => Phase::Command,
        Phase::Image => Phase::Size,
        Phase::Wait(Acknowledgement::Ram) => Phase::Image,
        Phase::Wait(Acknowledgement::Programming) => Phase::Wait(Acknowledgement::Ram),
        Phase::Wait(Acknowledgement::Verification) => Phase::Wait(Acknowledgement::Programming),
        Phase::Ended(_) => Phase::Wait(Acknowledgement::Verification),
    }
}

fn more(phase: Ticks, ticks: Ticks) -> Ticks
    ensures { result.0 ≡ more phase.0 ticks.0 }
{
    Ticks(phase.0.wrapping_add(ticks.0))
}
