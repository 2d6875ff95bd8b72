// A case in which host and chip are stepped side by side, a pulse at a time. What the chip measures goes by the case, and not by the ticks.
use crate::case::Case;
use crate::{case, print, sample, whole};
use chip::Chip;
use host::Host;
use load::Load;
use place::{Phase, Place};
use receiver::Receiver;
use session::Session;
use std::io;
use ticks::PhaseTicks;
use units::{Bytes, Loops, Seen, Ticks};

// No session of S has more pulses: 832 before the image, 352 of it, and every wait to its last pair.
const MOST_PULSES: u32 = 2_634;

// The loops of a wait, and of the lows of a 1 and of a 0.
pub(crate) const WAIT: u32 = 8;

pub(crate) const ONE: u32 = 8;

pub(crate) const ZERO: u32 = 17;

// What the host sees by `seen silent`, which has no number.
const SILENT: u32 = 2;

// The pulses that the case names, from the first to the last, counted from 1: the loops of the wait before each, and of its low as a 1 and
// as a 0, which the chip measures; or what the host sees around it, where that is not what the chip replied.
#[derive(Clone, Copy)]
struct Named {
    first: u32,
    last: u32,
    wait: u32,
    one: u32,
    zero: u32,
    seen: Option<Seen>,
}

impl Named {
    fn of(case: Case<'_>) -> Named {
        let first = case.number(case::PULSE, 0);
        Named {
            first,
            last: case.number(case::TO, first),
            wait: case.number(case::WAIT, WAIT),
            one: case.number(case::LOW, ONE),
            zero: case.number(case::LOW, ZERO),
            seen: seen(case),
        }
    }

    fn names(self, n: u32) -> bool {
        self.first <= n && n <= self.last
    }

    fn wait(self, n: u32) -> Loops {
        Loops(if self.names(n) { self.wait } else { WAIT })
    }

    fn low(self, n: u32, bit: bool) -> Loops {
        if self.names(n) {
            chosen(bit, self.one, self.zero)
        } else {
            chosen(bit, ONE, ZERO)
        }
    }

    fn seen(self, n: u32, reply: Seen) -> Seen {
        match self.seen {
            Some(seen) if self.names(n) => seen,
            _ => reply,
        }
    }
}

// Where a case measures its pulses, the host sees what the chip replied.
fn seen(case: Case<'_>) -> Option<Seen> {
    if case.says(case::WAIT) {
        return None;
    }
    match case.number(case::SEEN, SILENT) {
        0 => Some(Seen::Zero),
        1 => Some(Seen::One),
        SILENT => Some(Seen::Silence),
        _ => None,
    }
}

pub(crate) fn chosen(bit: bool, one: u32, zero: u32) -> Loops {
    Loops(if bit { one } else { zero })
}

// Both sides once the pulses are over, and the tick of the last rise.
#[derive(Clone, Copy)]
struct Stopped {
    host: Host,
    chip: Chip,
    rise: Ticks,
}

// The memories are its own: the EEPROM holds S, which would boot, and each byte of the RAM is 1.
pub(crate) fn run(rt: &impl Print, case: Case<'_>) -> io::Result<()> {
    let mut ram = [1u8; Bytes::MEMORY.0];
    let mut eeprom = sample::eeprom();
    let end = pulses(case, &mut ram, &mut eeprom);
    print!(rt; ": pulses {}", end.host.session.pulses)?;
    if let Some(ending) = end.host.end() {
        print!(rt; " host {ending}")?;
    }
    print::chip(rt, end.chip.end())?;
    print::margins(rt, end.chip.receiver.margins.nearest())?;
    // With the ticks of each phase, where these are asked for.
    if case.says(case::PHASES) {
        print!(rt; " ticks {}", end.rise.0)?;
        print::phases(rt, end.host.phases)?;
    }
    print::sums(rt, &ram, &eeprom)
}

fn pulses(case: Case<'_>, ram: &mut [u8], eeprom: &mut [u8]) -> Stopped {
    let named = Named::of(case);
    let image = image(case);
    let mut host = host(case);
    let mut chip = Chip {
        fault: case.fault(),
        receiver: Receiver::FRESH,
    };
    let mut rise = Ticks(0);
    let mut reply = Seen::Silence;
    for n in 0..case.number(case::STOPPED, MOST_PULSES) {
        let Ok(sent) = host.step(&image, named.seen(n, reply)) else {
            break;
        };
        let bit = host.session.ones < sent.host.session.ones;
        host = sent.host;
        rise = sent.rise;
        reply = Seen::Silence;
        if let Ok(played) = chip.step(ram, eeprom, named.wait(n + 1), named.low(n + 1, bit)) {
            chip = played.chip;
            reply = played.reply;
        }
    }
    Stopped { host, chip, rise }
}

// S, with the bytes that are sent as others.
fn image(case: Case<'_>) -> [u8; 44] {
    let mut image = sample::S;
    image[0] = case.byte(case::BYTE_0, 0);
    image[6] = case.byte(case::BYTE_6, 16);
    image
}

// The host of S before its first pulse. Command 0 has no image.
fn host(case: Case<'_>) -> Host {
    let command = case.number(case::COMMAND, 1);
    Host {
        settings: whole::settings(case),
        session: Session {
            load: Load {
                command,
                length: Bytes(if command == 0 { 0 } else { 44 }),
            },
            place: Place {
                phase: Phase::Calibration,
                index: 0,
            },
            pulses: 0,
            ones: 0,
            zeros: 0,
        },
        time: 0,
        phases: PhaseTicks::NONE,
    }
}
