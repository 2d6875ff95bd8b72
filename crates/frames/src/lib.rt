// How bits stand in a serial byte: each is a low run on the line with one high bit time after it.
#![tactic(auto)]

ghost use Rattle.std.specs.Prelude.{◌≡◌};
ghost use Rattle.frames.specs.Frames.{byte_of, fits, lows_of, width, with};

// A byte that is being filled: its low bit times, the first in the lowest place, and how many bit times are used.
#[derive(Clone, Copy, PartialEq, Eq, Debug)]
pub struct Frame {
    pub lows: u16,
    pub used: u8,
}

// The bit times of a byte: start, eight data bits, stop.
const BIT_TIMES: u32 = 10;

impl Frame {
    pub const EMPTY: Frame = Frame { lows: 0, used: 0 };

    // Whether the bit times left hold the bit.
    #[tactic(auto, unfolding(crate::specs::Frames::fits))]
    pub fn fits(self, bit: bool) -> bool
        ensures { result ≡ fits self bit }
    {
        u32::from(self.used) + u32::from(width(bit)) <= BIT_TIMES
    }

    // The frame with one bit more; where it doesn't fit, the frame as it is.
    #[tactic(auto, using(terms::proofs::Refusals::walk, crate::proofs::Spells::fits_room), unfolding(crate::specs::Frames::with))]
    pub fn with(self, bit: bool) -> Frame
        ensures { result ≡ with self bit }
    {
        if !self.fits(bit) {
            return self;
        }
        Frame {
            lows: self.lows | lows_of(bit) << self.used,
            used: self.used + width(bit),
        }
    }

    // The data bits: what is not low is high.
    pub fn byte(self) -> u8
        ensures { result ≡ byte_of self.lows }
    {
        (255 - self.lows / 2 % 256) as u8
    }
}

// The bit times of a 1 and of a 0: its low run, and the high one after it.
const ONE_WIDTH: u8 = 2;

const ZERO_WIDTH: u8 = 3;

fn width(bit: bool) -> u8
    ensures { result ≡ width bit }
{
    if bit { ONE_WIDTH } else { ZERO_WIDTH }
}

fn lows_of(bit: bool) -> u16
    ensures { result ≡ lows_of bit }
{
    if bit { 1 } else { 3 }
}
