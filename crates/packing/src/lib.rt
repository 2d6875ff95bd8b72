// What a serial byte holds: a pair, or as many of a run's next bits as its packing allows.
#![tactic(auto)]

ghost use Rattle.std.specs.Prelude.{◌≡◌};
ghost use Rattle.packing.specs.Phases.{in_bits, in_pairs};
ghost use Rattle.packing.specs.Filling.{filled, goes_into, goes_on, most, paired, sent_at};

use frames::Frame;
use load::Load;
use place::{Carries, Phase, Place};

// How many bits a byte holds at most: one, three, or as many as fit, so that the bytes are the fewest.
#[derive(Clone, Copy, PartialEq, Eq, Debug)]
pub enum Packing {
    One,
    Three,
    Fewest,
}

// A byte that is filled: its frame, and the place of the next bit.
#[derive(Clone, Copy, PartialEq, Eq, Debug)]
pub struct Filling {
    pub frame: Frame,
    pub place: Place,
}

// The byte that is filled from a place on. It is left where the next one begins, after a pair's at the pair's second pulse.
#[tactic(auto, using(terms::proofs::Refusals::walk), unfolding(crate::specs::Filling::sent_at))]
pub fn sent_at(packing: Packing, load: Load, image: &[u8], place: Place) -> Filling
    ensures { result ≡ sent_at packing load image.now place.phase place.index }
{
    if in_pairs(place.phase) {
        return paired(load, place);
    }
    filled(packing, load, image, place)
}

// A pair is the bits 1, 0. Its second pulse is left to the next call.
#[tactic(auto, unfolding(crate::specs::Filling::paired))]
fn paired(load: Load, place: Place) -> Filling
    ensures { result ≡ paired load place.phase place.index }
{
    let empty = Frame::EMPTY;
    let first = empty.with(true);
    Filling {
        frame: first.with(false),
        place: follow::onward(place, load),
    }
}

// The first bit, for which there always is room, comes before the loop, and the numbers of the byte are kept apart, not in a record: that is
// what makes it quick (docs/SPEED.md).
fn filled(packing: Packing, load: Load, image: &[u8], place: Place) -> Filling
    ensures { result ≡ filled packing load image.now place }
{
    let most = most(packing);
    let bit = bits::bit(place, load, image);
    let none = Frame::EMPTY;
    let first = none.with(bit);
    let second = follow::onward(place, load);
    let more = goes_on(packing, second);
    if !more {
        return Filling {
            frame: first,
            place: second,
        };
    }
    let mut lows = first.lows;
    let mut used = first.used;
    let mut phase = second.phase;
    let mut index = second.index;
    for n in 1..most {
        let here = Place { phase, index };
        let bit = bits::bit(here, load, image);
        let frame = Frame { lows, used };
        let fits = frame.fits(bit);
        if !fits {
            break;
        }
        let longer = frame.with(bit);
        let to = follow::onward(here, load);
        lows = longer.lows;
        used = longer.used;
        phase = to.phase;
        index = to.index;
        let goes = goes_on(packing, to);
        if !goes {
            break;
        }
    }
    Filling {
        frame: Frame { lows, used },
        place: Place { phase, index },
    }
}

#[tactic(auto, using(terms::proofs::Refusals::walk), unfolding(crate::specs::Filling::goes_on))]
fn goes_on(packing: Packing, place: Place) -> bool
    ensures { result ≡ goes_on packing place }
{
    0 < place.index || goes_into(packing, place.phase)
}

fn goes_into(packing: Packing, phase: Phase) -> bool
    ensures { result ≡ goes_into packing phase }
{
    packing == Packing::Fewest && in_bits(phase)
}

fn most(packing: Packing) -> u32
    ensures { result ≡ most packing }
{
    match packing {
        Packing::One => 1,
        Packing::Three => 3,
        Packing::Fewest => 5,
    }
}

fn in_pairs(phase: Phase) -> bool
    ensures { result ≡ in_pairs phase }
{
    phase.carries() == Carries::Pairs
}

fn in_bits(phase: Phase) -> bool
    ensures { result ≡ in_bits phase }
{
    phase.carries() == Carries::Bits
}
