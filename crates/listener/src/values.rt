// Command, size and longs, bit by bit.
ghost use Rattle.std.specs.Prelude.{◌≡◌};
ghost use Rattle.listener.specs.Heard.{read_command, read_long, read_size, received_command, received_long, received_size};

use crate::{Event, Heard, Listener};
use phases::{Acknowledgement, Ending, Phase};
use units::{Longs, Seen};

// The three `read_` are one `if` each. One function for them would take both outcomes as closures, and its clauses on those would be longer
// than these bodies.
impl Listener {
    #[tactic(auto, unfolding(terms::specs::Choice::when, crate::specs::Heard::read_command))]
    pub(crate) fn read_command(self, bits: u8, so_far: u32) -> Heard
        ensures { result ≡ read_command self bits so_far }
    {
        if bits < Phase::LAST_BIT {
            self.quiet(Phase::Command(bits + 1, so_far))
        } else {
            self.received_command(so_far)
        }
    }

    #[tactic(auto, unfolding(terms::specs::Choice::when, crate::specs::Heard::read_size))]
    pub(crate) fn read_size(self, bits: u8, so_far: u32) -> Heard
        ensures { result ≡ read_size self bits so_far }
    {
        if bits < Phase::LAST_BIT {
            self.quiet(Phase::Size(bits + 1, so_far))
        } else {
            self.received_size(Longs(so_far))
        }
    }

    #[tactic(auto, unfolding(terms::specs::Choice::when, crate::specs::Heard::read_long))]
    pub(crate) fn read_long(self, k: Longs, bits: u8, so_far: u32) -> Heard
        ensures { result ≡ read_long self k bits so_far }
    {
        if bits < Phase::LAST_BIT {
            self.quiet(Phase::Long(bits + 1, k, so_far))
        } else {
            self.received_long(k, so_far)
        }
    }

    // Command 0, or 4 and above: shut down.
    #[tactic(auto, unfolding(terms::specs::Choice::when, crate::specs::Heard::received_command))]
    fn received_command(self, command: u32) -> Heard
        ensures { result ≡ received_command self command }
    {
        if command == 0 || Phase::LARGEST_COMMAND < command {
            self.shutting()
        } else {
            self.with_command(command).quiet(Phase::Size(0, 0))
        }
    }

    // Size 0, or above 8,192: off chart.
    #[tactic(auto, unfolding(terms::specs::Choice::when, crate::specs::Heard::received_size))]
    fn received_size(self, size: Longs) -> Heard
        ensures { result ≡ received_size self size.0 }
    {
        if size == Longs(0) || Phase::LARGEST_SIZE < size {
            self.quiet(Phase::Ended(Ending::Off))
        } else {
            self.with_size(size).quiet(Phase::Long(0, Longs(0), 0))
        }
    }

    #[tactic(auto, unfolding(terms::specs::Choice::when, crate::specs::Heard::received_long))]
    fn received_long(self, k: Longs, long: u32) -> Heard
        ensures { result ≡ received_long self k long }
    {
        if u64::from(k.0) + 1 < u64::from(self.size.0) {
            self.led(
                Phase::Long(0, Longs(k.0 + 1), 0),
                Event::Store(k, long),
                Seen::Silence,
            )
        } else {
            self.led(
                Phase::Align(Acknowledgement::Stored),
                Event::Finish(k, long),
                Seen::Silence,
            )
        }
    }
}
