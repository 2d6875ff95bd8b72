// A trace reader: the lent trace with a place in it.
#![tactic(auto)]

ghost use Rattle.std.specs.Prelude.{◌≡◌};
ghost use Rattle.numbers.specs.Numbers.{groups, bound, number_at};

use numbers::{NoNumber, Number};
use units::Bytes;

// A lent trace, and a place in it.
#[derive(Clone, Copy)]
pub struct Reader<'a> {
    pub trace: &'a [u8],
    pub at: Bytes,
}

impl<'a> Reader<'a> {
    // A reader at a place of a trace.
    pub fn new(trace: &'a [u8], at: Bytes) -> Reader<'a>
        ensures { (result.trace ≡ trace.entry) × (result.at ≡ at) }
    {
        Reader { trace, at }
    }

    // The number at its place.
    pub fn next(self) -> Result<Number, NoNumber>
        ensures { result ≡ number_at groups bound self.entry.trace.now self.entry.at.0 }
    {
        numbers::number_at(self.trace, self.at)
    }

    // The same trace, at another place.
    pub fn moved(self, at: Bytes) -> Reader<'a>
        ensures { (result.trace ≡ self.entry.trace) × (result.at ≡ at) }
    {
        Reader {
            trace: self.trace,
            at,
        }
    }
}

// The number at a place of a trace, by a reader.
pub fn read(trace: &[u8], at: Bytes) -> Result<Number, NoNumber>
    ensures { result ≡ number_at groups bound trace.now at.0 }
{
    Reader::new(trace, at).next()
}
