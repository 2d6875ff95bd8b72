// The least command whose session has a phase.
ghost use Rattle.std.specs.Prelude.{◌≡◌};
ghost use Rattle.range.specs.Ranges.{least_command};

use place::{Acknowledgement, Ending, Phase};

pub(crate) fn command(phase: Phase) -> u32
    ensures { result ≡ least_command phase }
{
    match phase {
        Phase::Size | Phase::Image => 1,
        Phase::Wait(Acknowledgement::Ram) | Phase::Ended(Ending::BadRam) => 1,
        Phase::Wait(_) | Phase::Ended(Ending::BadProgramming | Ending::BadVerification) => 2,
        _ => 0,
    }
}
