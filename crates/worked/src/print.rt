// The parts of a line.
use crate::case;
use crate::case::Case;
use margins::Nearest;
use phases::Ending;
use std::io;
use ticks::PhaseTicks;
use units::{Distance, Loops, Seen};

// A case in which one low is read.
pub(crate) fn read(rt: &impl Print, case: Case<'_>) -> io::Result<()> {
    let threshold = Loops(case.number(case::THRESHOLD, 0));
    let read = line::reads(threshold, Loops(case.number(case::LOW, 0)));
    println!(rt; ": bit {} distance {}", u8::from(read.bit), read.distance.0)
}

// The ticks of each phase, and what they add up to.
pub(crate) fn phases(rt: &impl Print, phases: PhaseTicks) -> io::Result<()> {
    print!(rt; " phases")?;
    let mut sum = 0u64;
    for ticks in [
        phases.calibration,
        phases.handshake,
        phases.connection,
        phases.version,
        phases.command,
        phases.size,
        phases.image,
        phases.ram,
        phases.programming,
        phases.verification,
    ] {
        print!(rt; " {}", ticks.0)?;
        sum = sum.wrapping_add(ticks.0);
    }
    print!(rt; " sum {sum}")
}

pub(crate) fn chip(rt: &impl Print, end: Option<Ending>) -> io::Result<()> {
    match end {
        Some(ending) => print!(rt; " chip {ending}"),
        None => print!(rt; " chip listening"),
    }
}

// The nearest 1, whose distance is negative, and the nearest 0.
pub(crate) fn margins(rt: &impl Print, nearest: Nearest) -> io::Result<()> {
    print!(rt; " margins")?;
    margin(rt, nearest.one)?;
    margin(rt, nearest.zero)
}

fn margin(rt: &impl Print, margin: Option<Distance>) -> io::Result<()> {
    match margin {
        Some(distance) => print!(rt; " {}", distance.0),
        None => print!(rt; " none"),
    }
}

// What the chip replies, where it does.
pub(crate) fn reply(rt: &impl Print, reply: Seen) -> io::Result<()> {
    match reply {
        Seen::Silence => Ok(()),
        Seen::Zero => print!(rt; " reply 0"),
        Seen::One => print!(rt; " reply 1"),
    }
}

// The plain sums of both memories.
pub(crate) fn sums(rt: &impl Print, ram: &[u8], eeprom: &[u8]) -> io::Result<()> {
    println!(rt; " ram {} eeprom {}", lent::total(ram), lent::total(eeprom))
}
