// Host and chip joined: a whole run over lent memories.
#![tactic(auto)]

ghost use Rattle.std.specs.Prelude.{true, ◌≡◌};
ghost use Rattle.place.specs.Phases.{ended};
ghost use Rattle.joined.specs.Run.{left, outcome, run_of, told_ran, told_report};

mod pulses;

use chip::Chip;
use eeprom::Fault;
use host::Host;
use margins::Nearest;
use pulses::Clock;
use terms::Refusal;
use ticks::PhaseTicks;
use units::{Seen, Ticks};

// What a run came to: the pulses sent, the bits 1 and 0 among them, the tick of the last rise and its exact time, in ps, the ticks of each
// phase, how the host ended, and the chip, if it did, and the nearest 1 and 0 that the chip read.
#[derive(Clone, Copy)]
pub struct Report {
    pub pulses: u32,
    pub ones: u32,
    pub zeros: u32,
    pub ticks: Ticks,
    pub risen: u64,
    pub phases: PhaseTicks,
    pub host: place::Ending,
    pub chip: Option<phases::Ending>,
    pub nearest: Nearest,
}

// Host and chip between two pulses: the tick of the last rise and its exact time, in ps, and what the chip replied to the last pulse.
#[derive(Clone, Copy)]
struct Joined {
    host: Host,
    chip: Chip,
    rise: Ticks,
    risen: u64,
    reply: Seen,
}

// Sends a whole session to a chip, whose loops last `l` ps, with each count of loops rounded down. A count that does not fit 32 bits is
// `u32::MAX`, and so is each count of loops of 0 ps but for the first wait, which is 0. The refusals of the host's start come before those
// of the chip's; a refused run leaves both memories as they are.
pub fn run(
    t: u32,
    h: u32,
    p: u32,
    command: u32,
    image: &[u8],
    fault: Fault,
    l: u32,
    ram: &mut [u8],
    eeprom: &mut [u8],
) -> Result<Report, Refusal>
    ensures { left (told_ran result) ram.new eeprom.new ≡ run_of t h p command image.now fault l ram.old eeprom.old }
{
    let host = Host::start(t, h, p, command, image)?;
    let chip = Chip::start(ram, eeprom, fault)?;
    let start = Joined {
        host,
        chip,
        rise: Ticks(0),
        risen: 0,
        reply: Seen::Silence,
    };
    let end = pulses::play(start, image, Clock { p, l }, ram, eeprom);
    Ok(reported(end))
}

fn reported(end: Joined) -> Report
    requires { ended end.host.session.place.phase ≡ true }
    ensures { told_report result ≡ outcome end.host end.chip end.rise.0 end.risen }
{
    Report {
        pulses: end.host.session.pulses,
        ones: end.host.session.ones,
        zeros: end.host.session.zeros,
        ticks: end.rise,
        risen: end.risen,
        phases: end.host.phases,
        host: end.host.end().unwrap(),
        chip: end.chip.end(),
        nearest: end.chip.receiver.margins.nearest(),
    }
}
