// The chip model: one pulse a step, over lent memories.
#![tactic(auto)]

ghost use Rattle.std.specs.Prelude.{◌≡◌};
ghost use Rattle.terms.specs.Refusals.{told};
ghost use Rattle.phases.specs.Endings.{end_at, told_end};
ghost use Rattle.chip.specs.Step.{after, chip_outside, chip_start, chip_step, left, told_stepped};

mod work;

use eeprom::{Done, Fault};
use phases::Ending;
use receiver::{Received, Receiver};
use terms::Refusal;
use units::{Bytes, Loops, Seen};

// A chip: what is wrong with its EEPROM, and how far it has listened.
#[derive(Clone, Copy)]
pub struct Chip {
    pub fault: Fault,
    pub receiver: Receiver,
}

// A pulse played: the chip after it, and what the line shows at the pulse's rise.
#[derive(Clone, Copy)]
pub struct Played {
    pub chip: Chip,
    pub reply: Seen,
}

impl Chip {
    // The chip before its first pulse, or the first of refusals 10 to 12 that applies.
    #[tactic(auto, unfolding(terms::specs::Choice::when, crate::specs::Step::chip_start))]
    pub fn start(ram: &[u8], eeprom: &[u8], fault: Fault) -> Result<Chip, Refusal>
        ensures { told result ≡ chip_start ram.now eeprom.now fault }
    {
        if ram.len() != Bytes::MEMORY.0 {
            Err(Refusal::Ram)
        } else if eeprom.len() != Bytes::MEMORY.0 {
            Err(Refusal::Eeprom)
        } else if fault.is_outside() {
            Err(Refusal::Fault)
        } else {
            Ok(Chip {
                fault,
                receiver: Receiver::FRESH,
            })
        }
    }

    // The next pulse, `wait` the high before it and `low` its own length, or a refusal: 10 or 11 for a memory that is not of its size,
    // 13 for a record out of its ranges, 14 for one that has ended. A refused step leaves both memories as they are.
    // Both memories go by themselves, here and in the calls above: each promise speaks of either at exit. The first two rows are those of
    // `start`, one `if` a row as in every table.
    #[tactic(auto, unfolding(terms::specs::Choice::when, crate::specs::Step::chip_step))]
    pub fn step(
        mut self,
        ram: &mut [u8],
        eeprom: &mut [u8],
        wait: Loops,
        low: Loops,
    ) -> Result<Played, Refusal>
        ensures { left (told_stepped result) ram.new eeprom.new ≡ chip_step self ram.old eeprom.old wait.0 low.0 }
    {
        if ram.len() != Bytes::MEMORY.0 {
            return Err(Refusal::Ram);
        }
        if eeprom.len() != Bytes::MEMORY.0 {
            return Err(Refusal::Eeprom);
        }
        if self.is_outside() {
            return Err(Refusal::Record);
        }
        if self.receiver.listener.phase.has_ended() {
            return Err(Refusal::Ended);
        }
        let received = self.receiver.hears(wait, low);
        let done = work::done(self.fault, received.heard.event, ram, eeprom);
        self = Chip::after(received, done);
        Ok(Played {
            chip: self,
            reply: received.heard.reply,
        })
    }

    // How the chip has ended; `None` while it still listens.
    pub fn end(self) -> Option<Ending>
        ensures { told_end result ≡ end_at self.receiver.listener.phase }
    {
        self.receiver.listener.phase.end()
    }

    #[tactic(auto, unfolding(terms::specs::Choice::either, crate::specs::Step::chip_outside))]
    fn is_outside(self) -> bool
        ensures { result ≡ chip_outside self }
    {
        self.fault.is_outside() || self.receiver.is_outside()
    }

    // The record after a pulse, once its work is done.
    fn after(received: Received, done: Done) -> Chip
        ensures { result ≡ after received done.fault done.good }
    {
        Chip {
            fault: done.fault,
            receiver: received.settled(done.good),
        }
    }
}
