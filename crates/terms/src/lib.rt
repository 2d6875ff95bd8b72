// What every crate above shares: why a call refuses. The terms that specifications are written in stand in specs/, and the laws about them
// in proofs/.
#![tactic(auto)]

ghost use Rattle.std.specs.Prelude.{◌≡◌};
ghost use Rattle.terms.specs.Refusals.{number};

use std::error::Error;
use std::fmt;

// Why a call refuses. Each variant has the number that the tables of 01 and 02 give it.
#[derive(Clone, Copy, PartialEq, Eq, Debug)]
pub enum Refusal {
    // A figure of the bench: the unit time t, the spacer h, the tick p.
    UnitTime = 1,
    Spacer = 2,
    Tick = 3,
    Command = 4,
    // An image: its length, the words at bytes 8, 6 and 10, and its sum.
    Length = 5,
    NamedLength = 6,
    Start = 7,
    Stack = 8,
    Sum = 9,
    // A chip's memories, and the fault of its EEPROM.
    Ram = 10,
    Eeprom = 11,
    Fault = 12,
    // A record that no start and no step hands out, and one that has ended.
    Record = 13,
    Ended = 14,
    // A byte that came back and is no reply.
    Reply = 15,
    // A bench too slow for a chip's countdown.
    Slow = 16,
    // A trace: its first byte, a number in it, a wait without its low; and a buffer without room for it.
    Mark = 17,
    Number = 18,
    LoneWait = 19,
    Room = 27,
}

impl Refusal {
    pub fn number(self) -> u8
        ensures { result ≡ number self }
    {
        self as u8
    }
}

impl fmt::Display for Refusal {
    fn fmt<W: fmt::Write>(&self, f: &mut fmt::Formatter<W>) -> fmt::Result {
        write!(f, "refused {}", self.number())
    }
}

impl Error for Refusal {}
