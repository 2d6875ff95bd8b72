// How near a chip's lows came to being misread: of those read on each side of the threshold, the nearest.
#![tactic(auto)]

ghost use Rattle.std.specs.Prelude.{◌≡◌};
ghost use Rattle.margins.specs.Margins.{margins_outside, nearest, reads_bit, told, with_bit, with_pulse};

use line::Read;
use phases::Phase;
use std::fmt;
use units::Distance;

// The nearest 1, and the nearest 0, each by its distance from the threshold; `None` until one was read there.
#[derive(Clone, Copy, PartialEq, Eq, Debug)]
pub struct Nearest {
    pub one: Option<Distance>,
    pub zero: Option<Distance>,
}

// How far each lies, or `none`.
impl fmt::Display for Nearest {
    fn fmt<W: fmt::Write>(&self, f: &mut fmt::Formatter<W>) -> fmt::Result {
        write!(f, "{} {}", Side(self.one), Side(self.zero))
    }
}

#[derive(Clone, Copy)]
struct Side(Option<Distance>);

impl fmt::Display for Side {
    fn fmt<W: fmt::Write>(&self, f: &mut fmt::Formatter<W>) -> fmt::Result {
        match self.0 {
            Some(distance) => write!(f, "{}", distance.size()),
            None => write!(f, "none"),
        }
    }
}

// The same as a chip keeps it: where none was read stands a distance that no low has, farther than all, so that the first low is nearer.
// `nearest` tells. With an `Option` for each side a step copies padding, and is too slow (docs/DECISIONS.md, "How a side says that it has
// none").
#[derive(Clone, Copy, PartialEq, Eq, Debug)]
pub struct Margins {
    pub one: Distance,
    pub zero: Distance,
}

// The distance of the threshold itself, which a 0 may have.
const THRESHOLD: Distance = Distance(0);

// No 1 is so far, and no 0.
const NO_ONE: Distance = Distance(i64::MIN);

const NO_ZERO: Distance = Distance(i64::MAX);

impl Margins {
    // Nothing read.
    pub const NONE: Margins = Margins {
        one: NO_ONE,
        zero: NO_ZERO,
    };

    // Whether the nearest 1 is on the side of 0, or the nearest 0 on the side of 1.
    #[tactic(auto, unfolding(terms::specs::Choice::either, crate::specs::Margins::margins_outside))]
    pub fn is_outside(self) -> bool
        ensures { result ≡ margins_outside self }
    {
        THRESHOLD <= self.one || self.zero < THRESHOLD
    }

    // The margins after a timely pulse, heard in a phase.
    #[tactic(auto, unfolding(terms::specs::Choice::when, crate::specs::Margins::with_pulse))]
    pub fn with_pulse(self, phase: Phase, read: Read) -> Margins
        ensures { result ≡ with_pulse self phase read.bit read.distance.0 }
    {
        if reads_bit(phase) {
            self.with_bit(read)
        } else {
            self
        }
    }

    // A low that was read, on the side of its bit. Distances of 1s are negative: the greater is the nearer; of 0s, which are not, the lesser.
    #[tactic(auto, unfolding(terms::specs::Choice::when))]
    fn with_bit(self, read: Read) -> Margins
        ensures { result ≡ with_bit self read.bit read.distance.0 }
    {
        if read.bit {
            Margins {
                one: self.one.max(read.distance),
                ..self
            }
        } else {
            Margins {
                zero: self.zero.min(read.distance),
                ..self
            }
        }
    }

    // The nearest low on each side.
    #[tactic(auto, unfolding(terms::specs::Choice::when, crate::specs::Margins::nearest_one, crate::specs::Margins::nearest_zero))]
    pub fn nearest(self) -> Nearest
        ensures { told result ≡ nearest self }
    {
        Nearest {
            one: (NO_ONE < self.one).then_some(self.one),
            zero: (self.zero < NO_ZERO).then_some(self.zero),
        }
    }
}

// Whether a timely pulse is read as a bit: calibration lows and a reply's pulses are not.
fn reads_bit(phase: Phase) -> bool
    ensures { result ≡ reads_bit phase }
{
    matches!(
        phase,
        Phase::Handshake(_)
            | Phase::Command(_, _)
            | Phase::Size(_, _)
            | Phase::Long(_, _, _)
            | Phase::Align(_)
    )
}
