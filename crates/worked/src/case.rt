// What a case says. It is a load of S by command 1, with the figures of 01's program, but for what its line says.
use eeprom::Fault;
use units::Bytes;

pub(crate) const T: &str = "t ";

pub(crate) const H: &str = "h ";

pub(crate) const P: &str = "p ";

pub(crate) const COMMAND: &str = "command ";

pub(crate) const LENGTH: &str = "length ";

pub(crate) const RAM: &str = "ram of ";

pub(crate) const EEPROM: &str = "eeprom of ";

pub(crate) const BYTE: &str = "byte ";

pub(crate) const IS: &str = "is ";

pub(crate) const SENT: &str = "sent as ";

pub(crate) const BYTE_0: &str = "byte 0 sent as ";

pub(crate) const BYTE_6: &str = "byte 6 sent as ";

const ACCEPTS: &str = "accepts ";

const READS: &str = "reads ";

const AT: &str = "at ";

pub(crate) const PULSE: &str = "pulse ";

pub(crate) const WAIT: &str = "wait ";

pub(crate) const LOW: &str = "low ";

pub(crate) const SEEN: &str = "seen ";

pub(crate) const TO: &str = "to ";

pub(crate) const STOPPED: &str = "stopped after ";

pub(crate) const THRESHOLD: &str = "threshold ";

pub(crate) const SIZE: &str = "size ";

pub(crate) const D: &str = "d ";

pub(crate) const PHASES: &str = "phases ";

// In place of a number that a case does not say. None is so large. `cases::number` always answers a number, since most words have one to
// fall back on.
const UNSAID: u64 = u64::MAX;

// A case by its line.
#[derive(Clone, Copy)]
pub(crate) struct Case<'a> {
    pub(crate) line: &'a [u8],
}

impl<'a> Case<'a> {
    // The number behind a name, cut to 32 bits.
    pub(crate) fn number(self, name: &str, otherwise: u32) -> u32 {
        let number = cases::number(self.line, name.as_bytes(), u64::from(otherwise));
        (number % 4_294_967_296) as u32
    }

    // The same cut to a byte.
    pub(crate) fn byte(self, name: &str, otherwise: u8) -> u8 {
        (self.number(name, u32::from(otherwise)) % 256) as u8
    }

    // Whether the line says a number there.
    pub(crate) fn says(self, name: &str) -> bool {
        cases::number(self.line, name.as_bytes(), UNSAID) != UNSAID
    }

    pub(crate) fn fault(self) -> Fault {
        if self.says(ACCEPTS) {
            Fault::Accepts(self.number(ACCEPTS, 0))
        } else if self.says(READS) {
            Fault::Reads(self.byte(READS, 0), Bytes(self.number(AT, 0) as usize))
        } else {
            Fault::None
        }
    }
}
