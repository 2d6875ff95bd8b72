// Pulse after pulse of a trace, played to a chip.
ghost use Rattle.std.specs.Prelude.{false, ◌≡◌};
ghost use Rattle.trace.specs.Traces.{is_faulty, list_of, numbers_of};
ghost use Rattle.replay.specs.Replay.{listened, played, state};

use crate::pulses::pulse_at;
use chip::Chip;
use units::{Bytes, Loops};

// Pulses until the chip has ended, or the trace. No `for`: how long a pulse is only its bytes say.
pub(crate) fn play(mut chip: Chip, trace: &[u8], ram: &mut [u8], eeprom: &mut [u8]) -> Chip
    requires { is_faulty (numbers_of trace.now) ≡ false }
    ensures { state result ram.new eeprom.new ≡ played (list_of (numbers_of trace.now)) (state chip ram.old eeprom.old) }
{
    let mut at = 1;
    while at < trace.len() {
        if chip.end().is_some() {
            return chip;
        }
        let Some(pulse) = pulse_at(trace, Bytes(at)) else {
            return chip;
        };
        chip = listen(chip, ram, eeprom, pulse.wait, pulse.low);
        at = pulse.next.0;
    }
    chip
}

// The chip after a pulse; one that refused it would be as it was.
fn listen(chip: Chip, ram: &mut [u8], eeprom: &mut [u8], wait: Loops, low: Loops) -> Chip
    ensures { state result ram.new eeprom.new ≡ listened (state chip ram.old eeprom.old) wait.0 low.0 }
{
    match chip.step(ram, eeprom, wait, low) {
        Ok(played) => played.chip,
        Err(_) => chip,
    }
}
