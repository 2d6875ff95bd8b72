// Plays the trace on standard input to a fresh chip, over RAM of zeros and an EEPROM without a fault, and prints where that leaves the chip
// and its margins, or the number of a refusal. The EEPROM is zeros too; where a number is given as an argument it is that many bytes of
// standard input, and the trace is what follows them.
#![tactic(auto)]

use eeprom::Fault;
use replay::Report;
use std::alloc::AllocError;
use std::env::Env;
use units::Bytes;

// The bytes of the longest trace that is taken.
const LONGEST: usize = 4_194_304;

// One byte more than an EEPROM has, so that a longer one is seen to be too long.
const MOST: u32 = 32_769;

fn main(rt: HostRuntime) -> std::io::Result<()> {
    let mut text = [0u8; 20];
    let n = rt.arg(1, &mut text).unwrap_or(0);
    if n == 0 {
        let mut zeros = [0u8; Bytes::MEMORY.0];
        return Ok(play_input(&rt, &mut zeros)?);
    }
    let Some(size @ 0..=MOST) = figures::read(&text[..n]) else {
        let _ = eprintln!(rt;
            "replayed: a trace is wanted on standard input, and before it an EEPROM of as many bytes as the argument says, at most 32769"
        );
        return Ok(());
    };
    let mut eeprom = [0u8; MOST as usize];
    let n = io::read_full(0, &mut eeprom[..size as usize]);
    Ok(play_input(&rt, &mut eeprom[..n])?)
}

// Plays what is on standard input, up to a trace of one byte more than the longest has, so that a longer one is seen to be too long. An
// input that cannot be read ends there. Memory that runs out is an error; output that cannot be written is passed over.
fn play_input(
    rt: &(impl Print + Eprint + AllocGlobal),
    eeprom: &mut [u8],
) -> Result<(), AllocError> {
    let mut trace = vec![in rt.alloc(); 0u8; LONGEST + 1]?;
    let n = io::read_full(0, &mut trace);
    let _ = play(rt, &trace[..n], eeprom);
    Ok(())
}

fn play(rt: &(impl Print + Eprint), trace: &[u8], eeprom: &mut [u8]) -> std::io::Result<()> {
    if LONGEST < trace.len() {
        return eprintln!(rt; "replayed: the trace is over 4194304 bytes");
    }
    let mut ram = [0u8; Bytes::MEMORY.0];
    match replay::replay(trace, Fault::None, &mut ram, eeprom) {
        Ok(report) => print(rt, report),
        Err(refusal) => println!(rt; "{refusal}"),
    }
}

// Where the chip ended, and how many loops the nearest 1 lay from the threshold, and the nearest 0.
fn print(rt: &impl Print, report: Report) -> std::io::Result<()> {
    match report.chip {
        Some(ending) => println!(rt; "{ending}")?,
        None => println!(rt; "listening")?,
    }
    println!(rt; "margins {}", report.nearest)
}
