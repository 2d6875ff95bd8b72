// Single calls, each on a record made by hand: where what came back is looked at, and the order of the refusals.
use load::Load;
use packing::Packing;
use place::{Acknowledgement, Ending, Phase, Place};
use serial::Serial;
use std::io;
use units::Bytes;

pub(crate) fn print_all(rt: &impl Print) -> io::Result<()> {
    print_looked_at(rt)?;
    print_ignored(rt)?;
    print_runs(rt)?;
    print_fewest(rt)?;
    print_refusals(rt)
}

// Nothing, $FD, $FE, $FF and 0.
fn print_looked_at(rt: &impl Print) -> io::Result<()> {
    println!(rt; "after a pair that awaits a reply")?;
    for (name, phase) in [
        ("connection", Phase::Connection),
        ("version", Phase::Version(0)),
        ("ram", Phase::Wait(Acknowledgement::Ram)),
        ("programming", Phase::Wait(Acknowledgement::Programming)),
        ("verification", Phase::Wait(Acknowledgement::Verification)),
    ] {
        for back in [None, Some(0xfd), Some(0xfe), Some(0xff), Some(0)] {
            print_after(rt, name, Place { phase, index: 1 }, back)?;
        }
    }
    Ok(())
}

fn print_ignored(rt: &impl Print) -> io::Result<()> {
    println!(rt; "a byte that is ignored")?;
    for (name, phase, index) in [
        ("start", Phase::Calibration, 0),
        ("calibration", Phase::Calibration, 1),
        ("handshake", Phase::Handshake, 3),
        ("handshake's last", Phase::Connection, 0),
        ("connection's last", Phase::Version(0), 0),
        ("command", Phase::Command, 3),
        ("zeros", Phase::Zeros, 3),
        ("size", Phase::Size, 3),
        ("image", Phase::Image, 3),
        ("image's last", Phase::Wait(Acknowledgement::Ram), 0),
    ] {
        print_after(rt, name, Place { phase, index }, Some(0xfd))?;
    }
    Ok(())
}

// The last bytes of a run, by what is left of it. The image's last bits are 1, 0: a byte of data that is $F9.
fn print_runs(rt: &impl Print) -> io::Result<()> {
    println!(rt; "the end of a run")?;
    for (name, phase, index) in [
        ("handshake, 2 left", Phase::Handshake, 248),
        ("handshake, 1 left", Phase::Handshake, 249),
        ("command, 3 left", Phase::Command, 29),
        ("command, 2 left", Phase::Command, 30),
        ("zeros, 2 left", Phase::Zeros, 30),
        ("size, 2 left", Phase::Size, 30),
        ("image, 2 left", Phase::Image, 126),
        ("image, 1 left", Phase::Image, 127),
    ] {
        print_after(rt, name, Place { phase, index }, None)?;
    }
    Ok(())
}

// By the fewest bytes a byte takes what fits, from the command on to the image's end: five ones, then four and a 0 for which there is no room.
fn print_fewest(rt: &impl Print) -> io::Result<()> {
    println!(rt; "the fewest bytes")?;
    for (name, phase, index) in [
        ("handshake", Phase::Handshake, 0),
        ("handshake, 2 left", Phase::Handshake, 248),
        ("command, 2 left", Phase::Command, 30),
        ("size, 1 left", Phase::Size, 31),
        ("zeros, 2 left", Phase::Zeros, 30),
        ("image, five ones", Phase::Image, 64),
        ("image, four ones", Phase::Image, 68),
        ("image, 2 left", Phase::Image, 126),
    ] {
        print!(rt; "{name}:")?;
        let serial = Serial {
            packing: Packing::Fewest,
            load: LOAD,
            place: Place { phase, index },
        };
        print_step(rt, serial, &IMAGE, None)?;
    }
    Ok(())
}

fn print_after(rt: &impl Print, name: &str, place: Place, back: Option<u8>) -> io::Result<()> {
    match back {
        Some(byte) => print!(rt; "{name}, {byte}:")?,
        None => print!(rt; "{name}, nothing:")?,
    }
    print_step(rt, by_threes(LOAD, place), &IMAGE, back)
}

// Each is lent 15 bytes.
fn print_refusals(rt: &impl Print) -> io::Result<()> {
    println!(rt; "refusals in their order")?;
    let ended = Place {
        phase: Phase::Ended(Ending::Done),
        index: 0,
    };
    let pair = Place {
        phase: Phase::Connection,
        index: 1,
    };
    let bit = Place {
        phase: Phase::Handshake,
        index: 3,
    };
    let none = Load {
        command: 0,
        length: Bytes(0),
    };
    let short = Load {
        command: 1,
        length: Bytes(15),
    };
    let load = Load { command: 1, ..LOAD };
    for (name, load, place, back) in [
        ("13 before 14", short, ended, 0xfd),
        ("14", load, ended, 0xfd),
        ("15 before 5", load, pair, 0xfd),
        ("5", load, pair, 0xfe),
        ("5 in the handshake", load, bit, 0xfd),
        ("never for command 0", none, bit, 0xfd),
    ] {
        print!(rt; "{name}:")?;
        print_step(rt, by_threes(load, place), &IMAGE[..15], Some(back))?;
    }
    Ok(())
}

// Bits 64 to 71 are ones; its last two bits are 1, 0.
const IMAGE: [u8; 16] = [0, 0, 0, 0, 0, 0, 0, 0, 0xff, 0, 0, 0, 0, 0, 0, 0x40];

const LOAD: Load = Load {
    command: 2,
    length: Bytes(16),
};

fn by_threes(load: Load, place: Place) -> Serial {
    Serial {
        packing: Packing::Three,
        load,
        place,
    }
}

fn print_step(rt: &impl Print, serial: Serial, image: &[u8], back: Option<u8>) -> io::Result<()> {
    let turn = match serial.step(image, back) {
        Ok(turn) => turn,
        Err(refusal) => return println!(rt; " {refusal}"),
    };
    match turn.sent {
        Some(byte) => print!(rt; " byte {byte}")?,
        None => print!(rt; " no byte")?,
    }
    match turn.serial.end() {
        Some(ending) => println!(rt; ", ends {ending}"),
        None => println!(rt; ", at {}", turn.serial.place.index),
    }
}
