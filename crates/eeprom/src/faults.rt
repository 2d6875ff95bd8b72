// The EEPROM with its fault: what it accepts, whether it acknowledges, and how it reads.
ghost use Rattle.std.specs.Prelude.{◌≡◌, ◌<◌, get_or, length};
ghost use Rattle.eeprom.specs.Eeprom.{accepted, accepts, acknowledges, after, readable, reads, same, whole};

use crate::{Fault, PAGES};
use units::Bytes;

#[tactic(auto, unfolding(crate::specs::Eeprom::accepted, crate::specs::Eeprom::readable, terms::specs::Choice::when, terms::specs::Choice::both))]
impl Fault {
    // The pages that a programming of both memories writes.
    pub(crate) fn accepted(self, ram: &[u8], eeprom: &[u8]) -> u32
        ensures { result ≡ accepted self ram.now eeprom.now }
    {
        if is_whole(ram, eeprom) {
            self.accepts()
        } else {
            0
        }
    }

    fn accepts(self) -> u32
        ensures { result ≡ accepts self }
    {
        match self {
            Fault::Accepts(pages) => pages.min(PAGES),
            Fault::None | Fault::Reads(..) => PAGES,
        }
    }

    // The fault once so many pages were accepted.
    pub(crate) fn after(self, pages: u32) -> Fault
        ensures { result ≡ after self pages }
    {
        match self {
            Fault::Accepts(left) => Fault::Accepts(left.saturating_sub(pages)),
            Fault::None | Fault::Reads(..) => self,
        }
    }

    pub(crate) fn acknowledges(self) -> bool
        ensures { result ≡ acknowledges self }
    {
        !matches!(self, Fault::Accepts(0))
    }

    // Whether RAM can be read whole from the EEPROM.
    pub(crate) fn is_readable(self, ram: &[u8], eeprom: &[u8]) -> bool
        ensures { result ≡ readable self ram.now eeprom.now }
    {
        is_whole(ram, eeprom) && self.acknowledges()
    }

    // RAM made what the EEPROM reads as.
    pub(crate) fn read_whole(self, ram: &mut [u8], eeprom: &[u8])
        requires { length ram.old ≡ length eeprom.now }
        ensures { ram.new ≡ reads self eeprom.now }
    {
        ram.copy_from_slice(eeprom);
        if let Fault::Reads(value, at) = self
            && at.0 < ram.len()
        {
            ram[at.0] = value;
        }
    }

    // Whether each byte of the EEPROM, as it reads, is the RAM's.
    pub(crate) fn is_same(self, ram: &[u8], eeprom: &[u8]) -> bool
        ensures { result ≡ same ram.now (reads self eeprom.now) }
    {
        if ram.len() != eeprom.len() {
            return false;
        }
        for (at, byte) in ram.iter().enumerate() {
            if *byte != self.read(eeprom, at) {
                return false;
            }
        }
        true
    }

    fn read(self, eeprom: &[u8], at: usize) -> u8
        requires { at < length eeprom.now }
        ensures { result ≡ get_or (reads self eeprom.now) at 0 }
    {
        match self {
            Fault::Reads(value, place) if place.0 == at => value,
            _ => eeprom[at],
        }
    }
}

#[tactic(auto, unfolding(crate::specs::Eeprom::whole, terms::specs::Choice::both))]
fn is_whole(ram: &[u8], eeprom: &[u8]) -> bool
    ensures { result ≡ whole ram.now eeprom.now }
{
    ram.len() == Bytes::MEMORY.0 && eeprom.len() == Bytes::MEMORY.0
}
