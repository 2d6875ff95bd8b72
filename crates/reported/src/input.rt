// The arguments and standard input. Functions here name the runtime's type, so that of the environment a proof reaches the arguments alone.
use crate::job::{self, Command};
use std::alloc::{AllocError, Global};
use std::env::Env;
use std::ops::RangeInclusive;

// The most bytes of an image that are read: one more than an EEPROM has, so that a longer one is seen to be too long.
const LONGEST: u32 = 32_769;

#[derive(Clone, Copy)]
pub struct Arguments {
    pub format: Format,
    pub command: Command,
    pub trackers: u16,
    // The image's bytes.
    pub length: usize,
}

#[derive(Clone, Copy)]
pub enum Format {
    Text,
    Picture,
}

impl Arguments {
    // None where one is missing, or is not what is wanted.
    pub fn read(rt: &HostRuntime) -> Option<Arguments> {
        let format = match number(rt, 1, 0..=1)? {
            0 => Format::Text,
            _ => Format::Picture,
        };
        let command = match number(rt, 2, 1..=3)? {
            1 => Command::Run,
            2 => Command::Program,
            _ => Command::ProgramAndRun,
        };
        let trackers = u16::try_from(number(rt, 3, 1..=9_999)?).ok()?;
        let length = number(rt, 4, 0..=LONGEST)? as usize;
        Some(Arguments {
            format,
            command,
            trackers,
            length,
        })
    }
}

// An argument by its place, where it is a number in a range, written with at most 20 digits.
fn number(rt: &HostRuntime, place: usize, range: RangeInclusive<u32>) -> Option<u32> {
    let mut text = [0u8; 20];
    let length = rt.arg(place, &mut text).ok()?;
    let number = figures::read(&text[..length])?;
    range.contains(&number).then_some(number)
}

// The image's name, as it is shown; one may be missing.
pub fn title(alloc: Global, rt: &HostRuntime) -> Result<String, AllocError> {
    let mut name = [0u8; 4096];
    let length = rt.arg(5, &mut name).unwrap_or(0);
    job::title(alloc, &name[..length])
}

// Standard input, up to so many bytes. Input that cannot be read ends there.
pub fn read(alloc: Global, most: usize) -> Result<Vec<u8>, AllocError> {
    let mut bytes = vec![in alloc; 0u8; most]?;
    let length = io::read_full(0, &mut bytes);
    bytes.truncate(length);
    Ok(bytes)
}
