// A case in which a chip is fed its size and longs by hand, since no host sends such ones.
use crate::case::Case;
use crate::stepped::chosen;
use crate::{case, print, sample, stepped, whole};
use chip::Chip;
use eeprom::Fault;
use listener::Listener;
use margins::Margins;
use phases::Phase;
use receiver::Receiver;
use std::io;
use units::{Bytes, Longs, Loops};

// No size has more: 32 of it, 262,144 of its longs, and two pairs.
const MOST_PULSES: u32 = 262_180;

const LONGS_AT: u32 = 32;

// The longs are those of S and then of 2s, with D. The RAM has this D before them too, so that one that is read too early is seen.
pub(crate) fn run(rt: &impl Print, case: Case<'_>) -> io::Result<()> {
    let d = case.number(case::D, 0);
    let mut image = whole::image(case);
    lay(&mut image, d);
    let mut ram = [1u8; Bytes::MEMORY.0];
    lay(&mut ram, d);
    let mut eeprom = sample::eeprom();
    print!(rt; ":")?;
    feed(
        rt,
        case.number(case::SIZE, 0),
        &image,
        &mut ram,
        &mut eeprom,
    )?;
    let (total, by_place) = (lent::total(&ram), by_place(&ram));
    println!(rt;
        " ram {total} by place {by_place} eeprom {}",
        lent::total(&eeprom)
    )
}

// D is the word at 10.
fn lay(bytes: &mut [u8; Bytes::MEMORY.0], d: u32) {
    bytes[10] = (d % 256) as u8;
    bytes[11] = (d / 256 % 256) as u8;
}

// To the chip's end, after which it refuses.
fn feed(
    rt: &impl Print,
    size: u32,
    image: &[u8; Bytes::MEMORY.0],
    ram: &mut [u8; Bytes::MEMORY.0],
    eeprom: &mut [u8; Bytes::MEMORY.0],
) -> io::Result<()> {
    let mut chip = COMMANDED;
    for n in 0..MOST_PULSES {
        let low = chosen(bit(size, image, n), stepped::ONE, stepped::ZERO);
        let Ok(played) = chip.step(ram, eeprom, Loops(stepped::WAIT), low) else {
            break;
        };
        chip = played.chip;
        print::reply(rt, played.reply)?;
    }
    print::chip(rt, chip.end())
}

// A chip that has heard command 1.
const COMMANDED: Chip = Chip {
    fault: Fault::None,
    receiver: Receiver {
        listener: Listener {
            threshold: Loops(12),
            command: 1,
            size: Longs(0),
            phase: Phase::Size(0, 0),
        },
        left: Loops(250_000),
        margins: Margins::NONE,
    },
};

// The bit of pulse n, counted from 0: of the size, of its longs, and of the pairs for the acknowledgement.
fn bit(size: u32, image: &[u8; Bytes::MEMORY.0], n: u32) -> bool {
    if n < LONGS_AT {
        return size >> n & 1 == 1;
    }
    let at = n - LONGS_AT;
    if at / 32 < size {
        return image_bit(image, at);
    }
    n % 2 == 0
}

fn image_bit(image: &[u8; Bytes::MEMORY.0], at: u32) -> bool {
    match image.get(at as usize / 8) {
        Some(byte) => *byte >> (at % 8) & 1 == 1,
        None => false,
    }
}

// The sum after each byte, all of them added up: it tells where the bytes stand.
fn by_place(bytes: &[u8]) -> u64 {
    let mut sum = 0u64;
    let mut sums = 0u64;
    for byte in bytes {
        sum = sum.wrapping_add(u64::from(*byte));
        sums = sums.wrapping_add(sum);
    }
    sums
}
