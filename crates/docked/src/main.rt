// Sends the image on standard input as serial bytes to a chip that answers by the rules. Arguments: COMMAND BITS. With BITS 0 it prints a line
// for each packing, with 1, 3 or 5 it writes the bytes themselves by the packing that holds so many bits a byte at most; or the number of a
// refusal. bench/serial.rs is the same program in Rust.
#![tactic(auto)]

use packing::Packing;
use place::{Phase, Place};
use serial::Serial;
use std::alloc::AllocError;
use std::env::Env;
use std::io::Write;

// No session has more calls: 1,299, and eight for each byte of the image.
const CALLS: u32 = 263_379;

// One byte more than the longest image has, so that a longer input is seen to be too long.
const MOST: usize = 32_761;

// The parts of a session, by the byte that a call sends next.
#[derive(Clone, Copy, PartialEq, Eq, PartialOrd, Ord)]
enum Part {
    Calibration,
    Handshake,
    Connection,
    Load,
    Wait,
    Ended,
}

fn main(rt: HostRuntime) -> std::io::Result<()> {
    let (Some(command), Some(bits)) = (argument(&rt, 1), argument(&rt, 2)) else {
        usage(&rt);
        return Ok(());
    };
    // An array: memory for a vector could run out.
    let mut image = [0u8; MOST];
    let n = io::read_full(0, &mut image);
    let image = &image[..n];
    // Memory that runs out is an error; output that cannot be written is passed over.
    match bits {
        0 => print_lines(&rt, command, image),
        1 => write_bytes(&rt, Packing::One, command, image)?,
        3 => write_bytes(&rt, Packing::Three, command, image)?,
        5 => write_bytes(&rt, Packing::Fewest, command, image)?,
        _ => usage(&rt),
    }
    Ok(())
}

// An argument by its number. One that is missing, or too long for a figure, is none. It stands in each program: no promise could say what the
// environment has, and a library's public functions have one.
fn argument(rt: &HostRuntime, i: usize) -> Option<u32> {
    let mut text = [0u8; 20];
    let n = rt.arg(i, &mut text).ok()?;
    figures::read(&text[..n])
}

fn usage(rt: &impl Eprint) {
    let _ = eprintln!(rt;
        "docked: two numbers are wanted, COMMAND and BITS (0, 1, 3 or 5), and an image on standard input"
    );
}

fn write_bytes(
    rt: &(impl Print + AllocGlobal),
    packing: Packing,
    command: u32,
    image: &[u8],
) -> Result<(), AllocError> {
    let _ = match Serial::start(packing, command, image) {
        Ok(serial) => {
            let mut bytes = vec![in rt.alloc(); 0u8; CALLS as usize]?;
            let end = send(Progress::new(serial), Part::Ended, image, &mut bytes);
            bytes.truncate(end.bytes);
            std::io::writer(rt).write_all(bytes.as_slice())
        }
        Err(refusal) => println!(rt; "{refusal}"),
    };
    Ok(())
}

// Every packing takes the same loads.
fn print_lines(rt: &impl Print, command: u32, image: &[u8]) {
    for (name, packing) in [
        ("one", Packing::One),
        ("three", Packing::Three),
        ("fewest", Packing::Fewest),
    ] {
        match Serial::start(packing, command, image) {
            Ok(serial) => {
                let _ = print_line(rt, name, serial, image);
            }
            Err(refusal) => {
                let _ = println!(rt; "{refusal}");
                return;
            }
        }
    }
}

// At 115,200 baud nine bytes of ten bit times take 781,250 ns.
const NS_PER_NINE: u64 = 781_250;

const NS_PER_S: u64 = 1_000_000_000;

// How many bytes the handshake and the load take, and all that the session comes to, with the time of its bytes on the wire, cut to the
// nanosecond.
fn print_line(rt: &impl Print, name: &str, start: Serial, image: &[u8]) -> std::io::Result<()> {
    let mut progress = Progress::new(start);
    let mut ends = [0usize; 5];
    for (end, part) in ends.iter_mut().zip([
        Part::Handshake,
        Part::Connection,
        Part::Load,
        Part::Wait,
        Part::Ended,
    ]) {
        progress = send(progress, part, image, &mut []);
        *end = progress.bytes;
    }
    let [calibrated, connecting, connected, loaded, all] = ends;
    print!(rt;
        "packing {name} handshake {}",
        connecting.wrapping_sub(calibrated)
    )?;
    print!(rt;
        " load {} bytes {all} calls {}",
        loaded.wrapping_sub(connected),
        progress.calls
    )?;
    if let Some(ending) = progress.serial.end() {
        print!(rt; " host {ending}")?;
    }
    let ns = (all as u64).wrapping_mul(NS_PER_NINE) / 9;
    println!(rt; " seconds {}.{:09}", ns / NS_PER_S, ns % NS_PER_S)
}

// A session, and how many bytes and calls it took so far.
#[derive(Clone, Copy)]
struct Progress {
    serial: Serial,
    bytes: usize,
    calls: u32,
}

impl Progress {
    fn new(serial: Serial) -> Progress {
        Progress {
            serial,
            bytes: 0,
            calls: 0,
        }
    }
}

// Calls until the next byte is one of a part: keeps the bytes that are sent where there is room for them.
fn send(start: Progress, part: Part, image: &[u8], room: &mut [u8]) -> Progress {
    let mut progress = start;
    for _ in 0..CALLS {
        let serial = progress.serial;
        if part <= part_at(serial.place) {
            break;
        }
        let Ok(turn) = serial.step(image, reply(serial.place)) else {
            break;
        };
        if let Some(byte) = turn.sent {
            if let Some(place) = room.get_mut(progress.bytes) {
                *place = byte;
            }
            progress.bytes = progress.bytes.wrapping_add(1);
        }
        progress.serial = turn.serial;
        progress.calls = progress.calls.wrapping_add(1);
    }
    progress
}

// The part of the byte that is sent next. At the second pulse of a part's last pair that pair is sent.
fn part_at(place: Place) -> Part {
    match place.phase {
        Phase::Calibration if place.index < 1 => Part::Calibration,
        Phase::Calibration | Phase::Handshake => Part::Handshake,
        Phase::Version(_) if 15 <= place.index => Part::Load,
        Phase::Connection | Phase::Version(_) => Part::Connection,
        Phase::Command | Phase::Zeros | Phase::Size | Phase::Image => Part::Load,
        Phase::Wait(_) => Part::Wait,
        Phase::Ended(_) => Part::Ended,
    }
}

// What the chip answers to the pair at whose second pulse the record stands; elsewhere nothing comes back.
fn reply(place: Place) -> Option<u8> {
    match place.phase {
        Phase::Connection => Some(byte(sequence::draw(
            sequence::FIRST_CONNECTION_DRAW + place.index / 2,
        ))),
        Phase::Version(_) => Some(byte(place.index < 2)),
        // The chip aligns on the first pair and answers the next.
        Phase::Wait(_) if 2 <= place.index => Some(byte(false)),
        _ => None,
    }
}

fn byte(bit: bool) -> u8 {
    if bit { 0xff } else { 0xfe }
}
