// Replies and acknowledgements: what the line shows, and what follows the second pulse.
ghost use Rattle.std.specs.Prelude.{◌≡◌};
ghost use Rattle.line.specs.Replies.{reply_bit, shown};
ghost use Rattle.listener.specs.Heard.{acknowledged, after_connection, aligned, replied, stored, verified};

use crate::{Event, Heard, Listener};
use phases::{Acknowledgement, Phase, Reply};
use units::Seen;

// What the line shows at the rise of a reply's first pulse.
#[tactic(auto, unfolding(terms::specs::Choice::when, line::specs::Replies::shown))]
pub(crate) fn seen(reply: Reply) -> Seen
    ensures { result ≡ shown (reply_bit reply) }
{
    if line::reply_bit(reply) {
        Seen::One
    } else {
        Seen::Zero
    }
}

impl Listener {
    // The second pulse of a reply.
    pub(crate) fn replied(self, reply: Reply) -> Heard
        ensures { result ≡ replied self reply }
    {
        match reply {
            Reply::Connection(k) => self.quiet(after_connection(k)),
            Reply::Acknowledging(acknowledgement) => self.acknowledged(acknowledgement),
        }
    }

    fn acknowledged(self, acknowledgement: Acknowledgement) -> Heard
        ensures { result ≡ acknowledged self acknowledgement }
    {
        match acknowledgement {
            Acknowledgement::Stored => self.stored(),
            Acknowledgement::Programmed => self.led(
                Phase::Align(Acknowledgement::Verified),
                Event::Verify,
                Seen::Silence,
            ),
            Acknowledgement::Verified => self.verified(),
            Acknowledgement::Failed => self.shutting(),
        }
    }

    // Command 1 launches; 2 and 3 program first.
    #[tactic(auto, unfolding(terms::specs::Choice::when, crate::specs::Heard::stored))]
    fn stored(self) -> Heard
        ensures { result ≡ stored self }
    {
        if self.command == 1 {
            self.launching()
        } else {
            self.led(
                Phase::Align(Acknowledgement::Programmed),
                Event::Program,
                Seen::Silence,
            )
        }
    }

    // Command 2 shuts down; 3 launches.
    #[tactic(auto, unfolding(terms::specs::Choice::when, crate::specs::Heard::verified))]
    fn verified(self) -> Heard
        ensures { result ≡ verified self }
    {
        if self.command == 2 {
            self.shutting()
        } else {
            self.launching()
        }
    }

    // Pulses are read until one is 0; the reply is given with the next two.
    #[tactic(auto, unfolding(terms::specs::Choice::when, crate::specs::Heard::aligned))]
    pub(crate) fn aligned(self, acknowledgement: Acknowledgement, bit: bool) -> Heard
        ensures { result ≡ aligned self acknowledgement bit }
    {
        if bit {
            self.quiet(Phase::Align(acknowledgement))
        } else {
            self.quiet(Phase::Answer(Reply::Acknowledging(acknowledgement)))
        }
    }
}

#[tactic(auto, unfolding(terms::specs::Choice::when, crate::specs::Heard::after_connection))]
fn after_connection(k: u32) -> Phase
    ensures { result ≡ after_connection k }
{
    if k < Phase::LAST_CONNECTION_BIT {
        Phase::Answer(Reply::Connection(k + 1))
    } else {
        Phase::Command(0, 0)
    }
}
