// What the settings are compared by: the loading of one image onto all trackers.
use std::alloc::{AllocError, Global};
use std::fmt;

#[derive(Drop)]
pub struct Job {
    pub title: String,
    pub image: Vec<u8>,
    pub command: Command,
    pub trackers: u16,
}

#[derive(Clone, Copy)]
pub enum Command {
    Run = 1,
    Program = 2,
    ProgramAndRun = 3,
}

impl Command {
    pub fn number(self) -> u32 {
        self as u32
    }
}

impl fmt::Display for Command {
    fn fmt<W: fmt::Write>(&self, f: &mut fmt::Formatter<W>) -> fmt::Result {
        f.write_str(match self {
            Command::Run => "load RAM and run",
            Command::Program => "program the EEPROM and shut down",
            Command::ProgramAndRun => "program the EEPROM and run",
        })
    }
}

// The most bytes of the image's name that are shown.
const SHOWN: usize = 40;

// An image's name as it is shown, with a question mark for each byte that is no printable character.
pub fn title(alloc: Global, name: &[u8]) -> Result<String, AllocError> {
    if name.is_empty() {
        return String::from_str(alloc, "the image");
    }
    let cut = name.len().saturating_sub(SHOWN);
    let mut title = String::from_str(alloc, if cut == 0 { "" } else { ".." })?;
    for byte in name.iter().skip(cut) {
        title.push(shown(*byte))?;
    }
    Ok(title)
}

fn shown(byte: u8) -> char {
    match byte {
        b' '..=b'~' => char::from(byte),
        _ => '?',
    }
}
