// Reads an image from standard input, loads it by command 1 onto a chip whose EEPROM has no fault, and prints what came of it: six lines,
// or the number of a refusal.
#![tactic(auto)]

ghost use Rattle.std.specs.Prelude.{IsSome};

use eeprom::Fault;
use joined::Report;
use units::Bytes;

// The bench: t and h in ns, the tick p and the chip's loop in ps.
const T: u32 = 8_600;

const H: u32 = 8_600;

const P: u32 = 700_000;

const L: u32 = 400_000;

const COMMAND: u32 = 1;

// One byte more than the longest image has, so that a longer input is seen to be too long.
const MOST: usize = 32_761;

fn main(rt: HostRuntime) {
    // An array: memory for a vector could run out.
    let mut image = [0u8; MOST];
    let n = io::read_full(0, &mut image);
    let image = &image[..n];
    let mut ram = [0u8; Bytes::MEMORY.0];
    let mut eeprom = [0u8; Bytes::MEMORY.0];
    // Output that cannot be written is passed over.
    let _ = plan(&rt, image, &mut ram, &mut eeprom);
}

fn plan(
    rt: &impl Print,
    image: &[u8],
    ram: &mut [u8; Bytes::MEMORY.0],
    eeprom: &mut [u8; Bytes::MEMORY.0],
) -> std::io::Result<()> {
    match joined::run(T, H, P, COMMAND, image, Fault::None, L, ram, eeprom) {
        Ok(report) => print(rt, report),
        Err(refusal) => println!(rt; "{refusal}"),
    }
}

// The chip has ended: it is proved that a run of this program that isn't refused ends it.
fn print(rt: &impl Print, report: Report) -> std::io::Result<()>
    requires { IsSome report.chip }
{
    println!(rt; "pulses {}", report.pulses)?;
    println!(rt; "ones {}", report.ones)?;
    println!(rt; "zeros {}", report.zeros)?;
    println!(rt; "ticks {}", report.ticks.0)?;
    println!(rt; "host {}", report.host)?;
    println!(rt; "chip {}", report.chip.unwrap())
}
