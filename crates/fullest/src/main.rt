// Plays the longest load that command 3 has, the longest image, to a chip whose EEPROM has no fault, and prints what came of it.
// bench/chip.rs is the same program in Rust.
#![tactic(auto)]

use chip::{Chip, Played};
use eeprom::Fault;
use std::io;
use units::{Bytes, Distance, Loops, Seen};

// Its pulses, with each acknowledgement at the second pair.
const PULSES: u32 = 262_924;

// The pulses before the command's bits, the size's, the image's, and those of the acknowledgements.
const COMMAND_AT: u32 = 768;

const SIZE_AT: u32 = 800;

const IMAGE_AT: u32 = 832;

const PAIRS_AT: u32 = 262_912;

const COMMAND: u32 = 3;

const SIZE: u32 = 8_190;

// Each wait before a pulse, and the lows of a 1 and of a 0.
const WAIT: Loops = Loops(8);

const LOW_OF_ONE: Loops = Loops(8);

const LOW_OF_ZERO: Loops = Loops(17);

// The chip, the pulses that it took, the replies that it gave, and the number of its last refusal, or 0: as wide as the others, so that no
// padding is copied at each pulse.
#[derive(Clone, Copy)]
struct Progress {
    chip: Chip,
    pulses: u32,
    zeros: u32,
    ones: u32,
    refused: u32,
}

fn main(rt: HostRuntime) {
    let image = image::longest();
    let mut ram = [0u8; Bytes::MEMORY.0];
    let mut eeprom = [0u8; Bytes::MEMORY.0];
    // Output that cannot be written is passed over.
    match Chip::start(&ram, &eeprom, Fault::None) {
        Ok(chip) => {
            let end = run(chip, &image, &mut ram, &mut eeprom);
            let _ = print(&rt, end);
            let _ = println!(rt; "ram {}", sum(&ram));
            let _ = println!(rt; "eeprom {}", sum(&eeprom));
        }
        Err(refusal) => {
            let _ = println!(rt; "{refusal}");
        }
    }
}

fn print(rt: &impl Print, end: Progress) -> io::Result<()> {
    if end.refused != 0 {
        println!(rt; "refused {}", end.refused)?;
    }
    println!(rt; "pulses {}", end.pulses)?;
    println!(rt; "zeros {}", end.zeros)?;
    println!(rt; "ones {}", end.ones)?;
    match end.chip.end() {
        Some(ending) => println!(rt; "chip {ending}")?,
        None => println!(rt; "chip listening")?,
    }
    let nearest = end.chip.receiver.margins.nearest();
    print_nearest(rt, "one", nearest.one)?;
    print_nearest(rt, "zero", nearest.zero)
}

fn print_nearest(rt: &impl Print, name: &str, nearest: Option<Distance>) -> io::Result<()> {
    match nearest {
        Some(distance) => println!(rt; "nearest {name} {}", distance.size()),
        None => println!(rt; "nothing read"),
    }
}

// The sum without the first byte: all bytes of a memory with a good checksum, and those of an empty one, sum to 0.
fn sum(memory: &[u8; Bytes::MEMORY.0]) -> u8 {
    lent::sum(&memory[1..])
}

fn run(
    chip: Chip,
    image: &[u8; 32_760],
    ram: &mut [u8; Bytes::MEMORY.0],
    eeprom: &mut [u8; Bytes::MEMORY.0],
) -> Progress {
    let mut progress = Progress {
        chip,
        pulses: 0,
        zeros: 0,
        ones: 0,
        refused: 0,
    };
    for n in 0..PULSES {
        progress = one(progress, low(bit(image, n)), ram, eeprom);
    }
    progress
}

// One pulse more; a refused step is only remembered.
fn one(progress: Progress, low: Loops, ram: &mut [u8], eeprom: &mut [u8]) -> Progress {
    match progress.chip.step(ram, eeprom, WAIT, low) {
        Err(refusal) => Progress {
            refused: u32::from(refusal.number()),
            ..progress
        },
        Ok(played) => counted(progress, played),
    }
}

fn counted(progress: Progress, played: Played) -> Progress {
    match played.reply {
        Seen::Silence => taken(progress, played.chip, 0, 0),
        Seen::Zero => taken(progress, played.chip, 1, 0),
        Seen::One => taken(progress, played.chip, 0, 1),
    }
}

// One pulse more, and so many more replies of 0 and of 1.
fn taken(progress: Progress, chip: Chip, zeros: u32, ones: u32) -> Progress {
    Progress {
        chip,
        pulses: progress.pulses.wrapping_add(1),
        zeros: progress.zeros.wrapping_add(zeros),
        ones: progress.ones.wrapping_add(ones),
        refused: progress.refused,
    }
}

fn low(bit: bool) -> Loops {
    if bit { LOW_OF_ONE } else { LOW_OF_ZERO }
}

// The bit of pulse n, numbered from 0.
fn bit(image: &[u8; 32_760], n: u32) -> bool {
    if n < IMAGE_AT {
        return early_bit(n);
    }
    if n < PAIRS_AT {
        return image_bit(image, n - IMAGE_AT);
    }
    is_first_of_pair(n)
}

fn image_bit(image: &[u8; 32_760], at: u32) -> bool {
    at < 262_080 && image[at as usize / 8] >> (at % 8) & 1 == 1
}

fn is_first_of_pair(n: u32) -> bool {
    n % 2 == 0
}

// Calibration, handshake, the pairs for replies, command and size.
fn early_bit(n: u32) -> bool {
    if n < 2 {
        return is_first_of_pair(n);
    }
    if n < 252 {
        return sequence::draw(n - 1);
    }
    if n < COMMAND_AT {
        return is_first_of_pair(n);
    }
    if n < SIZE_AT {
        return COMMAND >> (n - COMMAND_AT) & 1 == 1;
    }
    if n < IMAGE_AT {
        return SIZE >> (n - SIZE_AT) & 1 == 1;
    }
    false
}
