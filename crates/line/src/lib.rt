// What passes on the line: how the chip reads a low, and the bits that it replies.
#![tactic(auto)]

ghost use Rattle.std.specs.Prelude.{◌≡◌};
ghost use Rattle.line.specs.Reading.{distance_of, grown, reads, threshold_of};
ghost use Rattle.line.specs.Replies.{acknowledged_bit, connection_bit, reply_bit};

use phases::{Acknowledgement, Reply};
use units::{Distance, Loops};

// A low as it was read: its bit, and how far from the threshold it lies. Both stand, though the sign of the one is the other, since
// `Margins::with_pulse` promises what it answers by each of them.
#[derive(Clone, Copy, PartialEq, Eq, Debug)]
pub struct Read {
    pub distance: Distance,
    pub bit: bool,
}

const DRAWS: u32 = 250;

// Of version 1 the first bit is 1, and the seven others are 0.
const VERSION_BIT: u32 = DRAWS;

// The threshold lies between the two calibration lows, rounded down.
pub fn threshold(first: Loops, second: Loops) -> Loops
    ensures { result.0 ≡ threshold_of first.0 second.0 }
{
    Loops(first.0.midpoint(second.0))
}

// A low below the threshold is 1: its distance is negative.
pub fn reads(threshold: Loops, low: Loops) -> Read
    ensures bit_value { result.bit ≡ reads threshold.0 low.0 }
    ensures distance_value { result.distance.0 ≡ distance_of threshold.0 low.0 }
{
    Read {
        distance: low.minus(threshold),
        bit: low < threshold,
    }
}

// A value with one bit more. They come low bit first: each is shifted in from the top, so that 32 of them are the value.
#[tactic(auto, unfolding(terms::specs::Choice::when, crate::specs::Reading::grown))]
pub fn grown(value: u32, bit: bool) -> u32
    ensures { result ≡ grown value bit }
{
    value >> 1 | u32::from(bit) << 31
}

// The bit of a reply.
pub fn reply_bit(reply: Reply) -> bool
    ensures { result ≡ reply_bit reply }
{
    match reply {
        Reply::Connection(k) => connection_bit(k),
        Reply::Acknowledging(acknowledgement) => acknowledged_bit(acknowledgement),
    }
}

#[tactic(auto, unfolding(terms::specs::Choice::when, crate::specs::Replies::connection_bit))]
fn connection_bit(k: u32) -> bool
    ensures { result ≡ connection_bit k }
{
    if k < DRAWS {
        sequence::draw(sequence::FIRST_CONNECTION_DRAW + k)
    } else {
        k == VERSION_BIT
    }
}

fn acknowledged_bit(acknowledgement: Acknowledgement) -> bool
    ensures { result ≡ acknowledged_bit acknowledgement }
{
    acknowledgement == Acknowledgement::Failed
}
