// Plans the longest session that command 1 has, of the longest image, against the replies of a good chip, and prints what was sent.
// bench/host.rs is the same program in Rust.
#![tactic(auto)]

use host::Host;
use place::{Phase, Place};
use std::io;
use units::{Seen, Ticks};

// Its pulses, with a RAM acknowledgement at the second pair.
const PULSES: u32 = 262_916;

// The host, the last rise, and the sum of all edges' ticks modulo 2^64.
#[derive(Clone, Copy)]
struct Progress {
    host: Host,
    rise: Ticks,
    edges: u64,
}

fn main(rt: HostRuntime) {
    let image = image::longest();
    // Output that cannot be written is passed over.
    let _ = match Host::start(8_600, 8_600, 700_000, 1, &image) {
        Ok(host) => print(&rt, run(host, &image)),
        Err(refusal) => println!(rt; "{refusal}"),
    };
}

fn print(rt: &impl Print, end: Progress) -> io::Result<()> {
    let session = end.host.session;
    println!(rt; "pulses {}", session.pulses)?;
    println!(rt; "ones {}", session.ones)?;
    println!(rt; "zeros {}", session.zeros)?;
    println!(rt; "ticks {}", end.rise.0)?;
    println!(rt; "edges {}", end.edges)?;
    let phases = end.host.phases;
    for (name, ticks) in [
        ("calibration", phases.calibration),
        ("handshake", phases.handshake),
        ("connection", phases.connection),
        ("version", phases.version),
        ("command", phases.command),
        ("size", phases.size),
        ("image", phases.image),
        ("ram", phases.ram),
        ("programming", phases.programming),
        ("verification", phases.verification),
    ] {
        println!(rt; "{name} {}", ticks.0)?;
    }
    match end.host.end() {
        Some(ending) => println!(rt; "host {ending}"),
        None => println!(rt; "host going on"),
    }
}

fn run(host: Host, image: &[u8]) -> Progress {
    let mut progress = Progress {
        host,
        rise: Ticks(0),
        edges: 0,
    };
    for _ in 0..PULSES {
        progress = one(progress, image);
    }
    progress
}

// One pulse more; a refused step changes nothing.
fn one(progress: Progress, image: &[u8]) -> Progress {
    let host = progress.host;
    match host.step(image, reply(host.session.place)) {
        Ok(sent) => Progress {
            host: sent.host,
            rise: sent.rise,
            edges: progress
                .edges
                .wrapping_add(sent.fall.0.wrapping_add(sent.rise.0)),
        },
        Err(_) => progress,
    }
}

// What a good chip replies to the pulse before the one at a place.
fn reply(place: Place) -> Seen {
    match place.phase {
        Phase::Connection => seen(sequence::draw(
            sequence::FIRST_CONNECTION_DRAW + place.index / 2,
        )),
        Phase::Version(_) => seen(place.index < 2),
        // The chip aligns on the first pair and answers the next.
        Phase::Wait(_) if 2 <= place.index => Seen::Zero,
        _ => Seen::Silence,
    }
}

fn seen(bit: bool) -> Seen {
    if bit { Seen::One } else { Seen::Zero }
}
