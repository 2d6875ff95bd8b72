// The pulses before a phase.
ghost use Rattle.std.specs.Prelude.{◌≡◌, ◌+◌};
ghost use Rattle.place.specs.Phases.{image_pulses};
ghost use Rattle.range.specs.Ranges.{before};

use load::Load;
use place::{Acknowledgement, Phase};

const BEFORE_CONNECTION: u32 = Phase::CALIBRATION_PULSES + Phase::HANDSHAKE_PULSES;

const BEFORE_VERSION: u32 = BEFORE_CONNECTION + Phase::CONNECTION_PULSES;

const BEFORE_COMMAND: u32 = BEFORE_VERSION + Phase::VERSION_PULSES;

const BEFORE_SIZE: u32 = BEFORE_COMMAND + Phase::VALUE_PULSES;

const BEFORE_IMAGE: u32 = BEFORE_SIZE + Phase::VALUE_PULSES;

// The pulses after an image and before a phase.
const BEFORE_VERIFICATION: u32 = Phase::RAM_PULSES + Phase::PROGRAMMING_PULSES;

const BEFORE_END: u32 = BEFORE_VERIFICATION + Phase::VERIFICATION_PULSES;

// The most pulses that can be sent before a phase. A wait that is answered early leaves some out.
pub(crate) fn pulses(load: Load, phase: Phase) -> u32
    ensures { result ≡ before load phase }
{
    match phase {
        Phase::Calibration => 0,
        Phase::Handshake => Phase::CALIBRATION_PULSES,
        Phase::Connection => BEFORE_CONNECTION,
        Phase::Version(_) => BEFORE_VERSION,
        Phase::Command | Phase::Zeros => BEFORE_COMMAND,
        Phase::Size => BEFORE_SIZE,
        Phase::Image => BEFORE_IMAGE,
        Phase::Wait(Acknowledgement::Ram) => with_image(load),
        Phase::Wait(Acknowledgement::Programming) => with_image(load) + Phase::RAM_PULSES,
        Phase::Wait(Acknowledgement::Verification) => with_image(load) + BEFORE_VERIFICATION,
        Phase::Ended(_) => with_image(load) + BEFORE_END,
    }
}

// All to the image's last.
fn with_image(load: Load) -> u32
    ensures { result ≡ 832 + image_pulses load }
{
    BEFORE_IMAGE + Phase::Image.places(load)
}
