// A chip without memories, in time: what it has heard, how many loops are left of its countdown, and how near its lows came to being
// misread.
#![tactic(auto)]

ghost use Rattle.std.specs.Prelude.{◌≡◌};
ghost use Rattle.receiver.specs.Hears.{counted, hears, settled};
ghost use Rattle.receiver.specs.Ranges.{receiver_outside};

mod late;

use listener::{Heard, Listener};
use margins::Margins;
use phases::Phase;
use units::Loops;

// A chip that listens, what is left of its countdown, and its margins.
#[derive(Clone, Copy, PartialEq, Eq, Debug)]
pub struct Receiver {
    pub listener: Listener,
    pub left: Loops,
    pub margins: Margins,
}

// What a pulse leads to, late or read, what is then left, and the margins with it.
#[derive(Clone, Copy, PartialEq, Eq, Debug)]
pub struct Received {
    pub heard: Heard,
    pub left: Loops,
    pub margins: Margins,
}

impl Receiver {
    // The chip before its first pulse.
    pub const FRESH: Receiver = Receiver {
        listener: Listener::FRESH,
        left: countdown::FIRST_BUDGET,
        margins: Margins::NONE,
    };

    // Whether some field lies outside its range.
    #[tactic(auto, unfolding(terms::specs::Choice::either, crate::specs::Ranges::receiver_outside))]
    pub fn is_outside(self) -> bool
        ensures { result ≡ receiver_outside self }
    {
        self.listener.is_outside()
            || countdown::is_outside(self.listener.phase, self.left)
            || self.margins.is_outside()
    }

    // What a pulse leads to: `wait` is the high before it, `low` its own length. A chip that has ended stays so.
    #[tactic(auto, using(countdown::proofs::Late::late_drawn), unfolding(terms::specs::Choice::when, crate::specs::Hears::hears))]
    pub fn hears(self, wait: Loops, low: Loops) -> Received
        ensures { result ≡ hears self wait.0 low.0 }
    {
        let phase = self.listener.phase;
        let left = countdown::drawn(self.left, wait, low);
        if left == Loops(0) {
            return counted(
                late::timed_out(self.listener),
                phase,
                self.left,
                self.margins,
            );
        }
        let read = line::reads(self.listener.threshold, low);
        let margins = self.margins.with_pulse(phase, read);
        counted(self.listener.hears(low, read.bit), phase, left, margins)
    }
}

impl Received {
    // The receiver once the work is done, well or not.
    pub fn settled(self, good: bool) -> Receiver
        ensures { result ≡ settled self good }
    {
        Receiver {
            listener: self.heard.settled(good),
            left: self.left,
            margins: self.margins,
        }
    }
}

fn counted(heard: Heard, from: Phase, left: Loops, margins: Margins) -> Received
    ensures { result ≡ counted heard from left.0 margins }
{
    Received {
        heard,
        left: countdown::counting(from, heard.listener.phase, left),
        margins,
    }
}
