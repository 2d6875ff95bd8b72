// Recorded traces, played to a chip.
#![tactic(auto)]

ghost use Rattle.std.specs.Prelude.{◌≡◌};
ghost use Rattle.replay.specs.Replay.{left, outcome, replay_of, told_replayed, told_report};

mod playing;
mod pulses;

use chip::Chip;
use eeprom::Fault;
use margins::Nearest;
use phases::Ending;
use terms::Refusal;

// What a replay came to: how the chip ended, if it did, and the nearest 1 and 0 that it read.
#[derive(Clone, Copy, PartialEq, Eq, Debug)]
pub struct Report {
    pub chip: Option<Ending>,
    pub nearest: Nearest,
}

// Plays a trace to a fresh chip, until the chip has ended or the trace. The refusals of the chip's start, 10 to 12, come before those
// of the file, 17 to 19, and all before the first pulse; a refused replay leaves both memories as they are.
pub fn replay(
    trace: &[u8],
    fault: Fault,
    ram: &mut [u8],
    eeprom: &mut [u8],
) -> Result<Report, Refusal>
    ensures { left (told_replayed result) ram.new eeprom.new ≡ replay_of trace.now fault ram.old eeprom.old }
{
    let chip = Chip::start(ram, eeprom, fault)?;
    trace::judge(trace)?;
    let end = playing::play(chip, trace, ram, eeprom);
    Ok(reported(end))
}

fn reported(chip: Chip) -> Report
    ensures { told_report result ≡ outcome chip }
{
    Report {
        chip: chip.end(),
        nearest: chip.receiver.margins.nearest(),
    }
}
