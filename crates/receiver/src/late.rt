// Where time-outs lead.
ghost use Rattle.std.specs.Prelude.{◌≡◌};
ghost use Rattle.receiver.specs.Late.{after_late, late_acknowledgement, late_reply};

use listener::{Event, Heard, Listener};
use phases::{Acknowledgement, Ending, Phase, Reply};
use units::Seen;

// A time-out boots while the chip reads or aligns. The pulse is used up and gets no reply.
pub(crate) fn timed_out(listener: Listener) -> Heard
    ensures { result ≡ after_late listener listener.phase }
{
    let (phase, event) = match listener.phase {
        Phase::Answer(reply) | Phase::Rest(reply) => (after_reply(reply), Event::Nothing),
        Phase::Ended(ending) => (Phase::Ended(ending), Event::Nothing),
        _ => (Phase::Ended(Ending::Booted), Event::Boot),
    };
    Heard {
        listener: Listener { phase, ..listener },
        event,
        reply: Seen::Silence,
    }
}

// Within a reply a time-out shuts down, but where the reply is the 0 for programming or verification the chip first aligns and replies 1.
fn after_reply(reply: Reply) -> Phase
    ensures { result ≡ late_reply reply }
{
    match reply {
        Reply::Connection(_) => Phase::Ended(Ending::Shut),
        Reply::Acknowledging(acknowledgement) => after_acknowledgement(acknowledgement),
    }
}

fn after_acknowledgement(acknowledgement: Acknowledgement) -> Phase
    ensures { result ≡ late_acknowledgement acknowledgement }
{
    match acknowledgement {
        Acknowledgement::Stored | Acknowledgement::Failed => Phase::Ended(Ending::Shut),
        Acknowledgement::Programmed | Acknowledgement::Verified => {
            Phase::Align(Acknowledgement::Failed)
        }
    }
}
