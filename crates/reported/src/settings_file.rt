// Reads the settings file, and tells its first fault.
use crate::error::Error;
use entries::{Bench, Cause};
use std::alloc::Global;
use std::fmt;

// The bytes of the largest file, and the most settings that it may have.
pub const LARGEST: usize = 65_536;

const MOST: usize = 32;

// What a text may begin with.
const BYTE_ORDER_MARK: [u8; 3] = [0xef, 0xbb, 0xbf];

#[derive(Clone, Copy)]
pub struct Setting<'a> {
    pub name: &'a str,
    pub line: usize,
    pub bench: Bench,
}

// What is wrong with a settings file.
#[derive(Clone, Copy)]
pub enum Fault<'a> {
    TooLarge,
    NoSetting,
    TooMany {
        line: usize,
    },
    SameName {
        line: usize,
        first: Setting<'a>,
    },
    Wrong {
        line: usize,
        cause: Cause,
        name: &'a [u8],
    },
}

pub fn read<'a>(alloc: Global, text: &'a [u8]) -> Result<Vec<Setting<'a>>, Error<'a>> {
    if LARGEST < text.len() {
        return Err(Error::Settings(Fault::TooLarge));
    }
    let mut rest = text.strip_prefix(&BYTE_ORDER_MARK).unwrap_or(text);
    let mut settings = Vec::new(alloc);
    // No file has more lines than bytes.
    for line in 1..=LARGEST {
        if rest.is_empty() {
            break;
        }
        let words = cases::line(rest, 0);
        rest = rest.get(words.len().saturating_add(1)..).unwrap_or(&[]);
        if let Some(setting) = Setting::of(words, line)? {
            check_new(&settings, setting)?;
            settings.push(setting)?;
        }
    }
    if settings.is_empty() {
        return Err(Error::Settings(Fault::NoSetting));
    }
    Ok(settings)
}

impl<'a> Setting<'a> {
    // The setting that a line has.
    fn of(words: &'a [u8], line: usize) -> Result<Option<Setting<'a>>, Fault<'a>> {
        let name = entries::word(words, 0);
        match entries::read(words) {
            Ok(bench) => Ok(bench.map(|bench| Setting {
                // The name of a setting has ASCII characters alone.
                name: str::from_utf8(name).unwrap_or(""),
                line,
                bench,
            })),
            Err(cause) => Err(Fault::Wrong { line, cause, name }),
        }
    }
}

// Whether a setting can stand behind others.
fn check_new<'a>(settings: &[Setting<'a>], new: Setting<'a>) -> Result<(), Fault<'a>> {
    let line = new.line;
    if let Some(first) = settings.iter().find(|other| other.name == new.name) {
        return Err(Fault::SameName {
            line,
            first: *first,
        });
    }
    if MOST <= settings.len() {
        return Err(Fault::TooMany { line });
    }
    Ok(())
}

impl fmt::Display for Fault<'_> {
    fn fmt<W: fmt::Write>(&self, f: &mut fmt::Formatter<W>) -> fmt::Result {
        match *self {
            Fault::TooLarge => write!(
                f,
                "settings: the file is over 65,536 bytes: drop comments and blank lines, or split it"
            ),
            Fault::NoSetting => write!(
                f,
                "settings: there is no setting: a line is NAME T H P, for example paper 8600 8600 12500"
            ),
            Fault::TooMany { line } => write!(
                f,
                "settings line {line}: there are more than 32 settings: split the file"
            ),
            Fault::SameName { line, first } => write!(
                f,
                "settings line {line}: the name {} stands in line {} already: each setting wants a name of its own",
                first.name, first.line
            ),
            Fault::Wrong { line, cause, name } => {
                write!(f, "settings line {line}: {}", WrongLine { cause, name })
            }
        }
    }
}

// What is wrong with a line, by its first word too.
#[derive(Clone, Copy)]
struct WrongLine<'a> {
    cause: Cause,
    name: &'a [u8],
}

impl fmt::Display for WrongLine<'_> {
    fn fmt<W: fmt::Write>(&self, f: &mut fmt::Formatter<W>) -> fmt::Result {
        match self.cause {
            Cause::Fewer => write!(
                f,
                "there are fewer than four words: NAME T H P are wanted, in ns, ns and ps"
            ),
            Cause::More => write!(
                f,
                "there are more than four words: NAME T H P are wanted, in ns, ns and ps; a comment starts with #"
            ),
            Cause::LongName => write!(f, "the name has more than 12 characters: shorten it"),
            Cause::OtherName => write!(
                f,
                "the name has the {}: write it with letters, digits, dots, underscores and hyphens alone",
                OtherByte(first_other(self.name))
            ),
            Cause::T => write_figure(f, "T", "unit time in ns", 8_600),
            Cause::H => write_figure(f, "H", "spacer in ns", 8_600),
            Cause::P => write_figure(f, "P", "tick in ps", 12_500),
        }
    }
}

fn write_figure<W: fmt::Write>(
    f: &mut fmt::Formatter<W>,
    name: &str,
    meaning: &str,
    example: u32,
) -> fmt::Result {
    write!(
        f,
        "{name} is no whole number below 4294967296: write in digits alone the {meaning}, for example {example}"
    )
}

// The first byte of a name that it may not have.
fn first_other(name: &[u8]) -> u8 {
    let other = name.iter().find(|byte| !byte.is_ascii_alphanumeric() && !b"._-".contains(byte));
    other.copied().unwrap_or(0)
}

// A byte; one that prints as a character.
#[derive(Clone, Copy)]
struct OtherByte(u8);

impl fmt::Display for OtherByte {
    fn fmt<W: fmt::Write>(&self, f: &mut fmt::Formatter<W>) -> fmt::Result {
        let byte = self.0;
        if byte.is_ascii_graphic() {
            write!(f, "character {}", char::from(byte))
        } else {
            write!(f, "byte {byte}")
        }
    }
}
