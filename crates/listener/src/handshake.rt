// A handshake bit against its draw.
ghost use Rattle.std.specs.Prelude.{◌≡◌};
ghost use Rattle.listener.specs.Heard.{after_draw, compared};

use crate::{Heard, Listener};
use phases::{Phase, Reply};

impl Listener {
    // A handshake bit against its draw: a mismatch boots at once.
    #[tactic(auto, unfolding(terms::specs::Choice::when, crate::specs::Heard::compared))]
    pub(crate) fn compared(self, k: u32, bit: bool) -> Heard
        ensures { result ≡ compared self k bit }
    {
        if bit == sequence::draw(k) {
            self.quiet(after_draw(k))
        } else {
            self.booting()
        }
    }
}

#[tactic(auto, unfolding(terms::specs::Choice::when, crate::specs::Heard::after_draw))]
fn after_draw(k: u32) -> Phase
    ensures { result ≡ after_draw k }
{
    if k < Phase::LAST_DRAW {
        Phase::Handshake(k + 1)
    } else {
        Phase::Answer(Reply::Connection(0))
    }
}
