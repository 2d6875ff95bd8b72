// The host planner: a session in time, one pulse a step.
#![tactic(auto)]

ghost use Rattle.std.specs.Prelude.{◌≡◌};
ghost use Rattle.terms.specs.Refusals.{told};
ghost use Rattle.place.specs.Endings.{end_at, told_end};
ghost use Rattle.host.specs.Step.{host_start, host_step};

mod ranges;
mod time;

use place::Ending;
use session::Session;
use settings::Settings;
use terms::Refusal;
use ticks::PhaseTicks;
use units::{Seen, Ticks};

// A host: the figures of its bench, the session that it sends, the exact time since the start, in ps, at which the next pulse falls, and
// the ticks of each phase so far. In a record that has ended the time is the one at which a further pulse would fall.
#[derive(Clone, Copy)]
pub struct Host {
    pub settings: Settings,
    pub session: Session,
    pub time: u64,
    pub phases: PhaseTicks,
}

// A pulse sent: the host after it, the ticks of its two edges, and the exact time of its rise, in ps.
#[derive(Clone, Copy)]
pub struct Sent {
    pub host: Host,
    pub fall: Ticks,
    pub rise: Ticks,
    pub risen: u64,
}

impl Host {
    // The host before its first pulse, or the first of refusals 1 to 9 that applies.
    #[tactic(auto, using(crate::proofs::Starts::settings_refuse, crate::proofs::Starts::session_refuses, crate::proofs::Starts::both_take))]
    pub fn start(t: u32, h: u32, p: u32, command: u32, image: &[u8]) -> Result<Host, Refusal>
        ensures { told result ≡ host_start t h p command image.now }
    {
        Ok(Host {
            settings: Settings::new(t, h, p)?,
            session: Session::start(command, image)?,
            time: 0,
            phases: PhaseTicks::NONE,
        })
    }

    // The next pulse, or a refusal: 13 for a record out of its ranges, 14 for one that has ended, 5 for an image of another length
    // than at the start. `seen` is what was seen around the pulse before. Each edge is cut to a tick once, from its exact time.
    #[tactic(auto, using(crate::proofs::Steps::late_refused, crate::proofs::Steps::some_p, crate::proofs::Steps::past_refused, crate::proofs::Steps::session_refused, crate::proofs::Steps::times_fit, crate::proofs::Steps::all_sent))]
    pub fn step(mut self, image: &[u8], seen: Seen) -> Result<Sent, Refusal>
        ensures { told result ≡ host_step self image.now seen }
    {
        if self.is_outside() {
            return Err(Refusal::Record);
        }
        let fall = time::tick(self.settings, self.time);
        let spacer = self.phases.spacer_before(fall).ok_or(Refusal::Record)?;
        let pulse = self.session.step(image, seen)?;
        let risen = self.time + time::low(self.settings, pulse.bit);
        let rise = time::tick(self.settings, risen);
        let low = Ticks(rise.0 - fall.0);
        self.phases = self.phases.with_pulse(self.session.place, spacer, low);
        self.session = pulse.session;
        self.time = risen + time::spacer(self.settings, pulse.silent);
        Ok(Sent {
            host: self,
            fall,
            rise,
            risen,
        })
    }

    // How the session has ended; none while it goes on.
    pub fn end(self) -> Option<Ending>
        ensures { told_end result ≡ end_at self.session.place.phase }
    {
        self.session.place.phase.end()
    }
}
