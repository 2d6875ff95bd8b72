// Plans the image on standard input by the bench figures that it is given as arguments, T H P LOOP COMMAND, plays it to a chip whose EEPROM
// has no fault, and writes the waits and lows that the chip measures as a trace file, each count of loops rounded down; or prints the number
// of a refusal.
#![tactic(auto)]

use chip::Chip;
use eeprom::Fault;
use host::Host;
use receiver::Receiver;
use std::alloc::{AllocError, Global};
use std::env::Env;
use std::io::Write;
use units::{Bytes, Loops, Seen, Ticks};

// No session has more pulses: 2,282 with every wait to its last pair, and eight for each byte of the image.
const PULSES: u32 = 264_362;

// One byte more than the longest image has, so that a longer input is seen to be too long.
const MOST: usize = 32_761;

fn main(rt: HostRuntime) -> std::io::Result<()> {
    let (Some(t), Some(h), Some(p), Some(l), Some(command)) = (
        argument(&rt, 1),
        argument(&rt, 2),
        argument(&rt, 3),
        argument(&rt, 4),
        argument(&rt, 5),
    ) else {
        let _ = eprintln!(rt;
            "traced: five numbers are wanted, T H P LOOP COMMAND, and an image on standard input"
        );
        return Ok(());
    };
    // An array: memory for a vector could run out.
    let mut image = [0u8; MOST];
    let n = io::read_full(0, &mut image);
    let image = &image[..n];
    // Memory that runs out is an error; output that cannot be written is passed over.
    match Host::start(t, h, p, command, image) {
        Ok(host) => {
            let numbers = measure(rt.alloc(), host, image, Clock { p, l })?;
            write(&rt, numbers.as_slice())?;
        }
        Err(refusal) => {
            let _ = println!(rt; "{refusal}");
        }
    }
    Ok(())
}

// An argument by its number. One that is missing, or too long for a figure, is none. It stands in each program: no promise could say what the
// environment has, and a library's public functions have one.
fn argument(rt: &HostRuntime, i: usize) -> Option<u32> {
    let mut text = [0u8; 20];
    let n = rt.arg(i, &mut text).ok()?;
    figures::read(&text[..n])
}

// How the time between two edges is measured: ticks of `p` ps, in loops of `l` ps.
#[derive(Clone, Copy)]
struct Clock {
    p: u32,
    l: u32,
}

impl Clock {
    fn loops(self, from: Ticks, to: Ticks) -> Loops {
        Ticks(to.0.wrapping_sub(from.0)).to_loops(self.p, self.l)
    }
}

// Pulses until the host has ended: the loops of the wait before each and of its low. A pulse that the host refused would change nothing, and
// a chip that has ended refuses its pulse and stays silent.
fn measure(alloc: Global, start: Host, image: &[u8], clock: Clock) -> Result<Vec<u64>, AllocError> {
    // Two numbers for each pulse that there can be, reserved at once: a vector that grows takes twice as much.
    let most = image.len().saturating_mul(8).saturating_add(2_282);
    let mut numbers = Vec::with_capacity(alloc, most.saturating_mul(2))?;
    let mut ram = [0u8; Bytes::MEMORY.0];
    let mut eeprom = [0u8; Bytes::MEMORY.0];
    let mut host = start;
    let mut chip = Chip {
        fault: Fault::None,
        receiver: Receiver::FRESH,
    };
    let mut rise = Ticks(0);
    let mut reply = Seen::Silence;
    for n in 0..PULSES {
        if host.end().is_some() {
            break;
        }
        let seen = bits::sees(host.session.place, reply);
        let Ok(sent) = host.step(image, seen) else {
            continue;
        };
        // The first wait measures 0.
        let wait = if n == 0 {
            Loops(0)
        } else {
            clock.loops(rise, sent.fall)
        };
        let low = clock.loops(sent.fall, sent.rise);
        numbers.push(u64::from(wait.0))?;
        numbers.push(u64::from(low.0))?;
        reply = Seen::Silence;
        if let Ok(played) = chip.step(&mut ram, &mut eeprom, wait, low) {
            chip = played.chip;
            reply = played.reply;
        }
        host = sent.host;
        rise = sent.rise;
    }
    Ok(numbers)
}

// Room for the mark, and five groups for each number.
fn write(rt: &(impl Print + AllocGlobal), numbers: &[u64]) -> Result<(), AllocError> {
    let room = numbers.len().saturating_mul(5).saturating_add(1);
    let mut file = vec![in rt.alloc(); 0u8; room]?;
    let _ = match trace::write(numbers, &mut file) {
        Ok(length) => {
            file.truncate(length.0);
            std::io::writer(rt).write_all(file.as_slice())
        }
        Err(refusal) => println!(rt; "{refusal}"),
    };
    Ok(())
}
