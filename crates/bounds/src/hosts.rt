// Hosts and serial sessions.
ghost use Rattle.std.specs.Prelude.{◌≤◌};

use crate::words;
use crate::words::{number, size, small};
use host::Host;
use load::Load;
use packing::Packing;
use place::{Acknowledgement, Ending, Phase, Place};
use serial::Serial;
use session::Session;
use settings::Settings;
use std::io;
use terms::Refusal;
use ticks::PhaseTicks;
use units::{Bytes, Seen, Ticks};

// Each is lent zeros: as many as its load has, where the case says nothing else.
pub(crate) fn print_host(rt: &impl Print, line: &[u8]) -> io::Result<()> {
    let zeros = [0u8; Bytes::MEMORY.0];
    let stepped = host(line).step(&zeros[..lent(line)], Seen::Silence);
    print_taken(rt, stepped.err())
}

pub(crate) fn print_serial(rt: &impl Print, line: &[u8]) -> io::Result<()> {
    let zeros = [0u8; Bytes::MEMORY.0];
    let stepped = serial(line).step(&zeros[..lent(line)], None);
    print_taken(rt, stepped.err())
}

fn print_taken(rt: &impl Print, refused: Option<Refusal>) -> io::Result<()> {
    match refused {
        Some(refusal) => println!(rt; ": {refusal}"),
        None => println!(rt; ": taken"),
    }
}

fn lent(line: &[u8]) -> usize
    ensures { result ≤ 32768 }
{
    size(line, words::LENT, small(line, words::LENGTH, 44))
}

fn host(line: &[u8]) -> Host {
    Host {
        settings: Settings {
            t: small(line, words::T, 8_600),
            h: small(line, words::H, 8_600),
            p: small(line, words::P, 700_000),
        },
        session: session(line),
        time: number(line, words::TIME, 0),
        phases: phases(line),
    }
}

fn phases(line: &[u8]) -> PhaseTicks {
    PhaseTicks {
        calibration: ticks(line, 0),
        handshake: ticks(line, 1),
        connection: ticks(line, 2),
        version: ticks(line, 3),
        command: ticks(line, 4),
        size: ticks(line, 5),
        image: ticks(line, 6),
        ram: ticks(line, 7),
        programming: ticks(line, 8),
        verification: ticks(line, 9),
    }
}

// The ticks of a phase by its number: a case says them of one, or of two.
fn ticks(line: &[u8], n: u64) -> Ticks {
    if number(line, words::TICKED, 10) == n {
        return Ticks(number(line, words::HAS, 0));
    }
    if number(line, words::ALSO, 10) == n {
        return Ticks(number(line, words::WITH, 0));
    }
    Ticks(0)
}

fn session(line: &[u8]) -> Session {
    let pulses = small(line, words::PULSES, 0);
    Session {
        load: Load {
            command: small(line, words::COMMAND, 1),
            length: Bytes(small(line, words::LENGTH, 44) as usize),
        },
        place: Place {
            phase: phase(small(line, words::PHASE, 0)),
            index: small(line, words::INDEX, 0),
        },
        pulses,
        ones: small(line, words::ONES, 0),
        zeros: small(line, words::ZEROS, pulses),
    }
}

// The load and the place of a session.
fn serial(line: &[u8]) -> Serial {
    let session = session(line);
    Serial {
        load: session.load,
        place: session.place,
        packing: Packing::Three,
    }
}

// The table's phases of a host.
fn phase(n: u32) -> Phase {
    match n {
        1 => Phase::Handshake,
        2 => Phase::Connection,
        3 => Phase::Version(255),
        4 => Phase::Command,
        5 => Phase::Zeros,
        6 => Phase::Size,
        7 => Phase::Image,
        8 => Phase::Wait(Acknowledgement::Ram),
        9 => Phase::Wait(Acknowledgement::Programming),
        10 => Phase::Wait(Acknowledgement::Verification),
        11 => Phase::Ended(Ending::Done),
        12 => Phase::Ended(Ending::Lost),
        13 => Phase::Ended(Ending::WrongVersion),
        14 => Phase::Ended(Ending::BadRam),
        15 => Phase::Ended(Ending::BadProgramming),
        16 => Phase::Ended(Ending::BadVerification),
        _ => Phase::Calibration,
    }
}
