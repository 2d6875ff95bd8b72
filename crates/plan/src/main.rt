// Plans the image on standard input by the bench figures that it is given as arguments, T H P LOOP COMMAND PHASES, plays it to a chip whose
// EEPROM has no fault, and prints what came of it: where PHASES is 0 the lines of `planned`, the exact seconds and the margins, where it is 1
// the ticks of each phase and their sum; or the number of a refusal.
#![tactic(auto)]

use eeprom::Fault;
use joined::Report;
use place::Ending;
use std::env::Env;
use ticks::PhaseTicks;
use units::Bytes;

// One byte more than the longest image has, so that a longer input is seen to be too long.
const MOST: usize = 32_761;

fn main(rt: HostRuntime) {
    let (Some(t), Some(h), Some(p), Some(l), Some(command), Some(phases @ 0..=1)) = (
        argument(&rt, 1),
        argument(&rt, 2),
        argument(&rt, 3),
        argument(&rt, 4),
        argument(&rt, 5),
        argument(&rt, 6),
    ) else {
        let _ = eprintln!(rt;
            "plan: six numbers are wanted, T H P LOOP COMMAND PHASES, with PHASES 0 or 1, and an image on standard input"
        );
        return;
    };
    // An array: memory for a vector could run out.
    let mut image = [0u8; MOST];
    let n = io::read_full(0, &mut image);
    let image = &image[..n];
    let mut ram = [0u8; Bytes::MEMORY.0];
    let mut eeprom = [0u8; Bytes::MEMORY.0];
    // Output that cannot be written is passed over; the warning is said all the same.
    let _ = match joined::run(
        t,
        h,
        p,
        command,
        image,
        Fault::None,
        l,
        &mut ram,
        &mut eeprom,
    ) {
        Ok(report) if phases == 1 => {
            let _ = print_phases(&rt, report.phases);
            warn(&rt, report.host)
        }
        Ok(report) => print_plan(&rt, report),
        Err(refusal) => println!(rt; "{refusal}"),
    };
}

// An argument by its number. One that is missing, or too long for a figure, is none. It stands in each program: no promise could say what the
// environment has, and a library's public functions have one.
fn argument(rt: &HostRuntime, i: usize) -> Option<u32> {
    let mut text = [0u8; 20];
    let n = rt.arg(i, &mut text).ok()?;
    figures::read(&text[..n])
}

fn print_plan(rt: &impl Print, report: Report) -> std::io::Result<()> {
    println!(rt; "pulses {}", report.pulses)?;
    println!(rt; "ones {}", report.ones)?;
    println!(rt; "zeros {}", report.zeros)?;
    println!(rt; "ticks {}", report.ticks.0)?;
    println!(rt; "host {}", report.host)?;
    match report.chip {
        Some(ending) => println!(rt; "chip {ending}")?,
        None => println!(rt; "chip listening")?,
    }
    print_seconds(rt, report.risen)?;
    println!(rt; "margins {}", report.nearest)
}

const PS_PER_NS: u64 = 1_000;

const NS_PER_S: u64 = 1_000_000_000;

// A time in ps as seconds, to the nanosecond: every low and every spacer is a whole number of them.
fn print_seconds(rt: &impl Print, time: u64) -> std::io::Result<()> {
    let ns = time / PS_PER_NS;
    println!(rt; "seconds {}.{:09}", ns / NS_PER_S, ns % NS_PER_S)
}

// A line for each phase, and one for what they add up to.
fn print_phases(rt: &impl Print, phases: PhaseTicks) -> std::io::Result<()> {
    let mut sum = 0u64;
    for (name, ticks) in [
        ("calibration", phases.calibration),
        ("handshake", phases.handshake),
        ("connection", phases.connection),
        ("version", phases.version),
        ("command", phases.command),
        ("size", phases.size),
        ("image", phases.image),
        ("ram", phases.ram),
        ("programming", phases.programming),
        ("verification", phases.verification),
    ] {
        println!(rt; "{name} {}", ticks.0)?;
        sum = sum.wrapping_add(ticks.0);
    }
    println!(rt; "ticks {sum}")
}

// The lines of the phases do not tell how the load ended.
fn warn(rt: &impl Eprint, host: Ending) -> std::io::Result<()> {
    match host {
        Ending::Done => Ok(()),
        ending => eprintln!(rt;
            "plan: warning: the host ended {ending}, so that the load did not succeed; without --phases the plan says more"
        ),
    }
}
