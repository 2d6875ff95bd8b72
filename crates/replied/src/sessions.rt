// Whole sessions, by each packing, with a chip that answers as it is told to.
use packing::Packing;
use place::{Acknowledgement, Phase, Place};
use serial::Serial;
use std::io;

// No session of 44 bytes has more calls: 1,299, and eight for each byte.
const CALLS: u32 = 1_651;

// What the chip answers: whether it connects, its version, the pair of each wait that it answers, from 0, if it answers any, and the wait that
// it answers with a 1.
#[derive(Clone, Copy)]
struct Chip {
    connects: bool,
    version: u32,
    ram: Option<u32>,
    programming: Option<u32>,
    verification: Option<u32>,
    bad: Option<Acknowledgement>,
}

// It aligns on the first pair of a wait and answers the next.
const GOOD: Chip = Chip {
    connects: true,
    version: 1,
    ram: Some(1),
    programming: Some(1),
    verification: Some(1),
    bad: None,
};

pub(crate) fn print_all(rt: &impl Print, image: &[u8]) -> io::Result<()> {
    println!(rt; "all good")?;
    print_each(rt, 1, image, GOOD)?;
    print_each(rt, 3, image, GOOD)?;
    println!(rt; "command 0")?;
    print_each(rt, 0, image, GOOD)?;
    println!(rt; "refused")?;
    print_each(rt, 4, image, GOOD)?;
    print_each(rt, 1, b"", GOOD)?;
    println!(rt; "silence at the first connection pair")?;
    print_each(
        rt,
        1,
        image,
        Chip {
            connects: false,
            ..GOOD
        },
    )?;
    println!(rt; "version 0, 2, 129")?;
    for version in [0, 2, 129] {
        print_each(rt, 1, image, Chip { version, ..GOOD })?;
    }
    println!(rt; "bad ram, programming, verification")?;
    for wait in [
        Acknowledgement::Ram,
        Acknowledgement::Programming,
        Acknowledgement::Verification,
    ] {
        print_each(
            rt,
            3,
            image,
            Chip {
                bad: Some(wait),
                ..GOOD
            },
        )?;
    }
    println!(rt; "no acknowledgement of ram, programming, verification")?;
    print_each(rt, 3, image, Chip { ram: None, ..GOOD })?;
    print_each(
        rt,
        3,
        image,
        Chip {
            programming: None,
            ..GOOD
        },
    )?;
    print_each(
        rt,
        3,
        image,
        Chip {
            verification: None,
            ..GOOD
        },
    )?;
    println!(rt; "answers at the last pair of two waits, none in the third")?;
    print_each(
        rt,
        3,
        image,
        Chip {
            ram: Some(24),
            programming: Some(499),
            verification: None,
            ..GOOD
        },
    )
}

fn print_each(rt: &impl Print, command: u32, image: &[u8], chip: Chip) -> io::Result<()> {
    for (name, packing) in [
        ("one", Packing::One),
        ("three", Packing::Three),
        ("fewest", Packing::Fewest),
    ] {
        print!(rt; "command {command}, {name}:")?;
        match Serial::start(packing, command, image) {
            Ok(serial) => print_end(rt, run(serial, image, chip))?,
            Err(refusal) => println!(rt; " {refusal}")?,
        }
    }
    Ok(())
}

// A session, and what was sent: bytes, their sum, and calls.
#[derive(Clone, Copy)]
struct Progress {
    serial: Serial,
    bytes: u32,
    sum: u32,
    calls: u32,
}

// A refused call changes nothing, so that no further one does.
fn run(serial: Serial, image: &[u8], chip: Chip) -> Progress {
    let mut progress = Progress {
        serial,
        bytes: 0,
        sum: 0,
        calls: 0,
    };
    for _ in 0..CALLS {
        let serial = progress.serial;
        let Ok(turn) = serial.step(image, reply(serial.place, chip)) else {
            break;
        };
        progress.serial = turn.serial;
        progress.calls = progress.calls.wrapping_add(1);
        if let Some(byte) = turn.sent {
            progress.bytes = progress.bytes.wrapping_add(1);
            progress.sum = progress.sum.wrapping_add(u32::from(byte));
        }
    }
    progress
}

fn print_end(rt: &impl Print, end: Progress) -> io::Result<()> {
    print!(rt; " bytes {} sum {} calls {}", end.bytes, end.sum, end.calls)?;
    match end.serial.end() {
        Some(ending) => println!(rt; " ends {ending}"),
        None => println!(rt; " goes on"),
    }
}

// What comes back for the byte before a place; a byte that is neither $FE nor $FF where no reply is looked at.
fn reply(place: Place, chip: Chip) -> Option<u8> {
    match place.phase {
        Phase::Connection if chip.connects => Some(byte(sequence::draw(
            sequence::FIRST_CONNECTION_DRAW + place.index / 2,
        ))),
        Phase::Connection => None,
        Phase::Version(_) => Some(byte(chip.version >> (place.index / 2 % 8) & 1 == 1)),
        Phase::Wait(wait) => chip.acknowledges(wait, place.index),
        _ => Some(7),
    }
}

impl Chip {
    fn acknowledges(self, wait: Acknowledgement, index: u32) -> Option<u8> {
        let pair = match wait {
            Acknowledgement::Ram => self.ram,
            Acknowledgement::Programming => self.programming,
            Acknowledgement::Verification => self.verification,
        };
        if pair == Some(index / 2) {
            Some(byte(self.bad == Some(wait)))
        } else {
            None
        }
    }
}

fn byte(bit: bool) -> u8 {
    if bit { 0xff } else { 0xfe }
}
