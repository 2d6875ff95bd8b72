// A record after a pulse: in another phase, with an event and a reply, or with what was read.
ghost use Rattle.std.specs.Prelude.{◌≡◌};
ghost use Rattle.listener.specs.Heard.{booting, in_phase, launching, led, quiet, shutting, with_command, with_size, with_threshold};

use crate::{Event, Heard, Listener};
use phases::{Ending, Phase};
use units::{Longs, Loops, Seen};

impl Listener {
    pub(crate) fn led(self, phase: Phase, event: Event, reply: Seen) -> Heard
        ensures { result ≡ led self phase event reply }
    {
        Heard {
            listener: self.in_phase(phase),
            event,
            reply,
        }
    }

    pub(crate) fn quiet(self, phase: Phase) -> Heard
        ensures { result ≡ quiet self phase }
    {
        self.led(phase, Event::Nothing, Seen::Silence)
    }

    pub(crate) fn booting(self) -> Heard
        ensures { result ≡ booting self }
    {
        self.led(Phase::Ended(Ending::Booted), Event::Boot, Seen::Silence)
    }

    pub(crate) fn launching(self) -> Heard
        ensures { result ≡ launching self }
    {
        self.led(Phase::Ended(Ending::Launched), Event::Launch, Seen::Silence)
    }

    pub(crate) fn shutting(self) -> Heard
        ensures { result ≡ shutting self }
    {
        self.quiet(Phase::Ended(Ending::Shut))
    }

    pub(crate) fn in_phase(self, phase: Phase) -> Listener
        ensures { result ≡ in_phase self phase }
    {
        Listener { phase, ..self }
    }

    pub(crate) fn with_threshold(self, threshold: Loops) -> Listener
        ensures { result ≡ with_threshold self threshold.0 }
    {
        Listener { threshold, ..self }
    }

    pub(crate) fn with_command(self, command: u32) -> Listener
        ensures { result ≡ with_command self command }
    {
        Listener { command, ..self }
    }

    pub(crate) fn with_size(self, size: Longs) -> Listener
        ensures { result ≡ with_size self size.0 }
    {
        Listener { size, ..self }
    }
}
