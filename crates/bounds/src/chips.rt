// Chips.
use crate::words;
use crate::words::{number, said, size, small};
use chip::Chip;
use eeprom::Fault;
use listener::Listener;
use margins::Margins;
use phases::{Acknowledgement, Ending, Phase, Reply};
use receiver::Receiver;
use std::io;
use units::{Bytes, Distance, Longs, Loops, Seen};

// The EEPROM would boot, and the pulse is a 1.
pub(crate) fn print_chip(rt: &impl Print, line: &[u8]) -> io::Result<()> {
    let mut ram = [1u8; Bytes::MEMORY.0];
    let mut eeprom = [2u8; Bytes::MEMORY.0];
    eeprom[6] = 16;
    eeprom[7] = 0;
    let a = size(line, words::RAM, 32_768);
    let b = size(line, words::EEPROM, 32_768);
    print_pulse(rt, chip(line), &mut ram[..a], &mut eeprom[..b])
}

// What a pulse comes to, and the plain sums of both memories.
fn print_pulse(rt: &impl Print, chip: Chip, ram: &mut [u8], eeprom: &mut [u8]) -> io::Result<()> {
    match chip.step(ram, eeprom, Loops(8), Loops(8)) {
        Ok(played) => match played.reply {
            Seen::Silence => print!(rt; ": taken")?,
            Seen::Zero => print!(rt; ": taken, replies 0")?,
            Seen::One => print!(rt; ": taken, replies 1")?,
        },
        Err(refusal) => print!(rt; ": {refusal}")?,
    }
    println!(rt; " ram {} eeprom {}", lent::total(ram), lent::total(eeprom))
}

fn chip(line: &[u8]) -> Chip {
    Chip {
        fault: fault(line),
        receiver: Receiver {
            listener: listener(line),
            left: Loops(small(line, words::LEFT, 250_000)),
            margins: margins(line),
        },
    }
}

// A side that the case does not name was not read.
fn margins(line: &[u8]) -> Margins {
    Margins {
        one: distance(line, words::ONE_BELOW, words::ONE_ABOVE, Margins::NONE.one),
        zero: distance(
            line,
            words::ZERO_BELOW,
            words::ZERO_ABOVE,
            Margins::NONE.zero,
        ),
    }
}

fn distance(line: &[u8], below: &str, above: &str, otherwise: Distance) -> Distance {
    let threshold = Loops(small(line, below, 0));
    let low = Loops(small(line, above, 0));
    if said(line, below) || said(line, above) {
        return low.minus(threshold);
    }
    otherwise
}

fn fault(line: &[u8]) -> Fault {
    if said(line, words::PAGES) {
        return Fault::Accepts(small(line, words::PAGES, 0));
    }
    if said(line, words::AT) {
        return Fault::Reads(255, Bytes(small(line, words::AT, 0) as usize));
    }
    Fault::None
}

fn listener(line: &[u8]) -> Listener {
    Listener {
        threshold: Loops(small(line, words::THRESHOLD, 12)),
        command: small(line, words::COMMAND, 0),
        size: Longs(small(line, words::SIZE, 0)),
        phase: phase(
            small(line, words::PHASE, 0),
            acknowledgement(small(line, words::ACKNOWLEDGING, 0)),
            small(line, words::FIRST, 0),
            (number(line, words::BITS, 0) % 256) as u8,
            Longs(small(line, words::LONG, 0)),
        ),
    }
}

// The table's phases of a chip. Each holds a draw, a reply, a low, or bits that were all 1; n is the case's first number.
fn phase(phase: u32, acknowledgement: Acknowledgement, n: u32, bits: u8, long: Longs) -> Phase {
    match phase {
        1 => Phase::Second(Loops(n)),
        2 => Phase::Handshake(n),
        3 => Phase::Answer(Reply::Connection(n)),
        4 => Phase::Rest(Reply::Connection(n)),
        5 => Phase::Command(bits, u32::MAX),
        6 => Phase::Size(bits, u32::MAX),
        7 => Phase::Long(bits, long, u32::MAX),
        8 => Phase::Align(acknowledgement),
        9 => Phase::Answer(Reply::Acknowledging(acknowledgement)),
        10 => Phase::Rest(Reply::Acknowledging(acknowledgement)),
        11 => Phase::Ended(Ending::Launched),
        12 => Phase::Ended(Ending::Booted),
        13 => Phase::Ended(Ending::Shut),
        14 => Phase::Ended(Ending::Off),
        _ => Phase::First,
    }
}

fn acknowledgement(n: u32) -> Acknowledgement {
    match n {
        0 => Acknowledgement::Stored,
        1 => Acknowledgement::Programmed,
        2 => Acknowledgement::Verified,
        _ => Acknowledgement::Failed,
    }
}
