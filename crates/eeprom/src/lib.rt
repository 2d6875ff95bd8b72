// The EEPROM with its fault, and the work between it and RAM, both lent: programming, verification and boot. Where one of them is not of
// its size, no page is accepted and nothing is booted.
#![tactic(auto)]

ghost use Rattle.std.specs.Prelude.{◌≡◌};
ghost use Rattle.eeprom.specs.Eeprom.{booted, boots, fault_outside, programmed, programming, verifies};

mod faults;

use units::Bytes;

// What is wrong with an EEPROM: nothing; it accepts so many pages more, and then acknowledges nothing; or it reads as this value at this
// address, while the byte there is written normally.
#[derive(Clone, Copy, PartialEq, Eq, Debug)]
pub enum Fault {
    None,
    Accepts(u32),
    Reads(u8, Bytes),
}

// How work on the memories went, and what is wrong with the EEPROM after it.
#[derive(Clone, Copy, PartialEq, Eq, Debug)]
pub struct Done {
    pub good: bool,
    pub fault: Fault,
}

// A memory's pages.
pub const PAGES: u32 = 512;

const PAGE: usize = Bytes::PAGE.0;

impl Fault {
    // Whether a chip does not start with this fault: more than 512 pages, or an address of 32,768 or above.
    pub fn is_outside(self) -> bool
        ensures { result ≡ fault_outside self }
    {
        match self {
            Fault::None => false,
            Fault::Accepts(pages) => PAGES < pages,
            Fault::Reads(_, at) => Bytes::MEMORY.0 <= at.0,
        }
    }

    // Programs the EEPROM from RAM, page by page, as many as it accepts, and says whether it accepted them all.
    #[tactic(auto, using(crate::proofs::Memories::accepted_fits, crate::proofs::Memories::accepted_of_ram, crate::proofs::Memories::accepted_of_eeprom))]
    pub fn program(self, ram: &[u8], eeprom: &mut [u8]) -> Done
        ensures eeprom_after { eeprom.new ≡ programmed self ram.now eeprom.old }
        ensures value { result ≡ programming self ram.now eeprom.old }
    {
        let pages = self.accepted(ram, eeprom);
        let count = pages as usize * PAGE;
        eeprom[..count].copy_from_slice(&ram[..count]);
        Done {
            good: pages == PAGES,
            fault: self.after(pages),
        }
    }

    // Whether the EEPROM acknowledges and each byte of it, as it reads, is the RAM's.
    #[tactic(auto, unfolding(crate::specs::Eeprom::verifies, terms::specs::Choice::both))]
    pub fn verify(self, ram: &[u8], eeprom: &[u8]) -> bool
        ensures { result ≡ verifies self ram.now eeprom.now }
    {
        self.acknowledges() && self.is_same(ram, eeprom)
    }

    // Reads RAM whole from the EEPROM, as it reads, and says whether that launches. An EEPROM that does not acknowledge leaves RAM
    // as it is.
    #[tactic(auto, using(crate::proofs::Memories::readable_lengths), unfolding(crate::specs::Eeprom::booted, crate::specs::Eeprom::boots, terms::specs::Choice::when, terms::specs::Choice::both))]
    pub fn boot(self, ram: &mut [u8], eeprom: &[u8]) -> bool
        ensures ram_after { ram.new ≡ booted self ram.old eeprom.now }
        ensures value { result ≡ boots self ram.old eeprom.now }
    {
        if !self.is_readable(ram, eeprom) {
            return false;
        }
        self.read_whole(ram, eeprom);
        ram::is_launchable(ram)
    }
}
