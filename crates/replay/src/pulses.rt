// The pulses of a trace, by their places in it.
ghost use Rattle.std.specs.Prelude.{◌≡◌};
ghost use Rattle.replay.specs.Pulses.{pulse_at};

use units::{Bytes, Loops};

// A pulse: its wait, its low, and the place after it.
#[derive(Clone, Copy)]
pub(crate) struct Pulse {
    pub(crate) wait: Loops,
    pub(crate) low: Loops,
    pub(crate) next: Bytes,
}

// The pulse at a place, unless no whole one stands there.
pub(crate) fn pulse_at(trace: &[u8], at: Bytes) -> Option<Pulse>
    ensures { result ≡ pulse_at trace.now at.0 }
{
    let wait = reader::read(trace, at).ok()?;
    let low = reader::read(trace, wait.next).ok()?;
    Some(Pulse {
        wait: Loops::of(wait.value),
        low: Loops::of(low.value),
        next: low.next,
    })
}
