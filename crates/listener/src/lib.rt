// The chip as it listens, without memories: how it reads a pulse, where that leads, what it replies, and which work on the memories it
// calls for.
#![tactic(auto)]

ghost use Rattle.std.specs.Prelude.{◌≡◌};
ghost use Rattle.listener.specs.Heard.{heard};
ghost use Rattle.listener.specs.Settled.{failed, settled};
ghost use Rattle.listener.specs.Ranges.{listener_outside};

mod handshake;
mod leading;
mod replies;
mod values;

use phases::{Acknowledgement, Ending, Phase};
use units::{Longs, Loops, Seen};

// A chip that listens: its threshold, the command and the size, each 0 until it is known, and what the next pulse is to it.
#[derive(Clone, Copy, PartialEq, Eq, Debug)]
pub struct Listener {
    pub threshold: Loops,
    pub command: u32,
    pub size: Longs,
    pub phase: Phase,
}

// Work on the memories: none; a long to store; the last long, with what finishes a load; programming; verification; the launch test; or
// a boot.
#[derive(Clone, Copy, PartialEq, Eq, Debug)]
pub enum Event {
    Nothing,
    Store(Longs, u32),
    Finish(Longs, u32),
    Program,
    Verify,
    Launch,
    Boot,
}

// What a pulse leads to: the listener, if the work goes well; the work; and the reply at the pulse's rise.
#[derive(Clone, Copy, PartialEq, Eq, Debug)]
pub struct Heard {
    pub listener: Listener,
    pub event: Event,
    pub reply: Seen,
}

impl Listener {
    // The chip before its first pulse.
    pub const FRESH: Listener = Listener {
        threshold: Loops(0),
        command: 0,
        size: Longs(0),
        phase: Phase::First,
    };

    // Half of two lows that together are no time-out.
    pub const LARGEST_THRESHOLD: Loops = Loops(187_499);

    // Whether some field lies outside its range.
    #[tactic(auto, unfolding(terms::specs::Choice::either, crate::specs::Ranges::listener_outside))]
    pub fn is_outside(self) -> bool
        ensures { result ≡ listener_outside self }
    {
        Listener::LARGEST_THRESHOLD < self.threshold
            || Phase::LARGEST_COMMAND < self.command
            || Phase::LARGEST_SIZE < self.size
            || self.phase.is_outside(self.command, self.size)
    }

    // What a timely pulse leads to: `low` is its length, and `bit` what it reads as. The two calibration pulses count by their lows. A chip
    // that has ended stays so.
    pub fn hears(self, low: Loops, bit: bool) -> Heard
        ensures { result ≡ heard self self.phase low.0 bit }
    {
        match self.phase {
            Phase::First => self.quiet(Phase::Second(low)),
            Phase::Second(first) => self
                .with_threshold(line::threshold(first, low))
                .quiet(Phase::Handshake(1)),
            Phase::Handshake(k) => self.compared(k, bit),
            Phase::Answer(reply) => {
                self.led(Phase::Rest(reply), Event::Nothing, replies::seen(reply))
            }
            Phase::Rest(reply) => self.replied(reply),
            Phase::Command(bits, so_far) => self.read_command(bits, line::grown(so_far, bit)),
            Phase::Size(bits, so_far) => self.read_size(bits, line::grown(so_far, bit)),
            Phase::Long(bits, k, so_far) => self.read_long(k, bits, line::grown(so_far, bit)),
            Phase::Align(acknowledgement) => self.aligned(acknowledgement, bit),
            Phase::Ended(ending) => self.quiet(Phase::Ended(ending)),
        }
    }
}

impl Heard {
    // The listener once the work is done, well or not.
    #[tactic(auto, unfolding(terms::specs::Choice::when, crate::specs::Settled::settled))]
    pub fn settled(self, good: bool) -> Listener
        ensures { result ≡ settled self good }
    {
        if good { self.listener } else { self.failed() }
    }

    // Where work that did not go well leads: a reply of 1, or a silent shut-down.
    fn failed(self) -> Listener
        ensures { result ≡ failed self.listener self.event }
    {
        match self.event {
            Event::Nothing | Event::Store(_, _) => self.listener,
            Event::Finish(_, _) | Event::Program | Event::Verify => {
                self.listener
                    .in_phase(Phase::Align(Acknowledgement::Failed))
            }
            Event::Launch | Event::Boot => self.listener.in_phase(Phase::Ended(Ending::Shut)),
        }
    }
}
