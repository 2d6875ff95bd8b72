// A case as a whole run.
ghost use Rattle.std.specs.Prelude.{◌≡◌, ◌≤◌, length};

use crate::case::Case;
use crate::{case, print, sample};
use joined::Report;
use settings::Settings;
use std::io;
use units::Bytes;

// The bench: t and h in ns, the tick p and the chip's loop in ps.
const T: u32 = 8_600;

const H: u32 = 8_600;

const P: u32 = 700_000;

const L: u32 = 400_000;

// The memories are its own: the EEPROM holds S, which would boot, and each byte of the RAM is 1.
pub(crate) fn run(rt: &impl Print, case: Case<'_>) -> io::Result<()> {
    let image = image(case);
    let mut ram = [1u8; Bytes::MEMORY.0];
    let mut eeprom = sample::eeprom();
    let ram = &mut ram[..size(case, case::RAM, 32_768)];
    let eeprom = &mut eeprom[..size(case, case::EEPROM, 32_768)];
    let settings = settings(case);
    match joined::run(
        settings.t,
        settings.h,
        settings.p,
        case.number(case::COMMAND, 1),
        &image[..size(case, case::LENGTH, 44)],
        case.fault(),
        L,
        ram,
        eeprom,
    ) {
        Ok(report) => print(rt, report, case.says(case::PHASES))?,
        Err(refusal) => print!(rt; ": {refusal}")?,
    }
    print::sums(rt, ram, eeprom)
}

// With the ticks of each phase, where these are asked for.
fn print(rt: &impl Print, report: Report, phases: bool) -> io::Result<()> {
    print!(rt;
        ": pulses {} ones {} zeros {}",
        report.pulses, report.ones, report.zeros
    )?;
    print!(rt; " ticks {} host {}", report.ticks.0, report.host)?;
    print::chip(rt, report.chip)?;
    print::margins(rt, report.nearest)?;
    if phases {
        print::phases(rt, report.phases)?;
    }
    Ok(())
}

// Made by hand: they need not be within their bounds.
pub(crate) fn settings(case: Case<'_>) -> Settings {
    Settings {
        t: case.number(case::T, T),
        h: case.number(case::H, H),
        p: case.number(case::P, P),
    }
}

// S with a byte of another value. Byte 0 of S is 0.
pub(crate) fn image(case: Case<'_>) -> [u8; Bytes::MEMORY.0]
    ensures { 32768 ≡ length result }
{
    let mut image = sample::eeprom();
    let at = (case.number(case::BYTE, 0) % 32_768) as usize;
    image[at] = case.byte(case::IS, 0);
    image
}

// How many bytes of a memory, or of an image, are lent.
fn size(case: Case<'_>, name: &str, otherwise: u32) -> usize
    ensures { result ≤ 32768 }
{
    (case.number(name, otherwise) % 32_769) as usize
}
