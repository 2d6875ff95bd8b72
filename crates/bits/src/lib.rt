// What a session sends and sees, by its phase and the pulse's number there: the bit of each pulse, and what the chip's reply is to it.
#![tactic(auto)]

ghost use Rattle.std.specs.Prelude.{◌≡◌, ◌+◌};
ghost use Rattle.sequence.specs.Sequence.{draw};
ghost use Rattle.bits.specs.Bits.{image_bit, pair_bit, sent_bit, value_bit};
ghost use Rattle.bits.specs.Seeing.{sees};

use load::Load;
use place::{Carries, Phase, Place};
use units::Seen;

// The bit of the pulse at a place. A byte past the image's end counts as 0, and so does the bit of an ended session.
pub fn bit(place: Place, load: Load, image: &[u8]) -> bool
    ensures { result ≡ sent_bit load image.now place.phase place.index }
{
    let index = place.index;
    match place.phase {
        Phase::Calibration | Phase::Connection | Phase::Version(_) | Phase::Wait(_) => pair_bit(
            index,
        ),
        Phase::Handshake => handshake_bit(index),
        Phase::Command => value_bit(load.command, index),
        // The size is sent in longs.
        Phase::Size => value_bit(load.length.to_longs().0, index),
        Phase::Image => image_bit(image, index),
        Phase::Zeros | Phase::Ended(_) => false,
    }
}

// The first pulse of a pair is its 1.
pub fn pair_bit(index: u32) -> bool
    ensures { result ≡ pair_bit index }
{
    index % 2 == 0
}

// What the host sees in the call that sends the pulse at a place, where the chip's reply to the pulse before was `reply`.
#[tactic(auto, using(terms::proofs::Refusals::walk), unfolding(crate::specs::Seeing::around_first))]
pub fn sees(place: Place, reply: Seen) -> Seen
    ensures { result ≡ sees place.phase place.index reply }
{
    if place.phase.carries() == Carries::Pairs && !pair_bit(place.index) {
        return reply;
    }
    Seen::Silence
}

// Draw 1 comes first. Cut to the period the number's successor fits for every index.
#[tactic(auto, using(sequence::proofs::Draws::draw_same))]
fn handshake_bit(index: u32) -> bool
    ensures { result ≡ draw (index + 1) }
{
    sequence::draw(index % sequence::PERIOD + 1)
}

fn value_bit(value: u32, index: u32) -> bool
    ensures { result ≡ value_bit value index }
{
    index < u32::BITS && value >> index & 1 == 1
}

fn image_bit(image: &[u8], index: u32) -> bool
    ensures { result ≡ image_bit image.now index }
{
    image
        .get(index as usize / 8)
        .is_some_and(|byte| byte >> (index % 8) & 1 == 1)
}
