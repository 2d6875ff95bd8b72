// What a case says: words, each with a number right behind them.
ghost use Rattle.std.specs.Prelude.{◌≤◌};

pub(crate) const T: &str = "t ";

pub(crate) const H: &str = "h ";

pub(crate) const P: &str = "p ";

pub(crate) const COMMAND: &str = "command ";

pub(crate) const LENGTH: &str = "length ";

pub(crate) const LENT: &str = "lent ";

pub(crate) const PHASE: &str = "in ";

pub(crate) const INDEX: &str = "index ";

pub(crate) const PULSES: &str = "pulses ";

pub(crate) const ONES: &str = "ones ";

pub(crate) const ZEROS: &str = "zeros ";

pub(crate) const TIME: &str = "time ";

pub(crate) const RAM: &str = "ram of ";

pub(crate) const EEPROM: &str = "eeprom of ";

pub(crate) const PAGES: &str = "pages ";

pub(crate) const AT: &str = "at ";

pub(crate) const THRESHOLD: &str = "threshold ";

pub(crate) const SIZE: &str = "size ";

pub(crate) const ACKNOWLEDGING: &str = "acknowledging ";

pub(crate) const BITS: &str = "bits ";

pub(crate) const LONG: &str = "long ";

pub(crate) const HOST: &str = "host in ";

pub(crate) const SERIAL: &str = "serial in ";

pub(crate) const LEFT: &str = "left ";

pub(crate) const ONE_BELOW: &str = "one -";

pub(crate) const ONE_ABOVE: &str = "one ";

pub(crate) const ZERO_BELOW: &str = "zero -";

pub(crate) const ZERO_ABOVE: &str = "zero ";

// A phase that has ticks, and another one.
pub(crate) const TICKED: &str = "phase ";

pub(crate) const HAS: &str = "has ";

pub(crate) const ALSO: &str = "and ";

pub(crate) const WITH: &str = "with ";

// The first number of a case, whatever is before it.
pub(crate) const FIRST: &str = "";

// In place of a number that a case does not say. None is so large. `cases::number` always answers a number, since most words have one to
// fall back on.
const UNSAID: u64 = u64::MAX;

pub(crate) fn said(line: &[u8], word: &str) -> bool {
    number(line, word, UNSAID) != UNSAID
}

pub(crate) fn number(line: &[u8], word: &str, otherwise: u64) -> u64 {
    cases::number(line, word.as_bytes(), otherwise)
}

// The number, cut to 32 bits.
pub(crate) fn small(line: &[u8], word: &str, otherwise: u32) -> u32 {
    (number(line, word, u64::from(otherwise)) % 4_294_967_296) as u32
}

// How many bytes of a memory, or of an image, are lent: never more than a memory has.
pub(crate) fn size(line: &[u8], word: &str, otherwise: u32) -> usize
    ensures { result ≤ 32768 }
{
    (number(line, word, u64::from(otherwise)) % 32_769) as usize
}
