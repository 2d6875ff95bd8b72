// The ranges of a host's settings and time. Its phases and its session test the others.
ghost use Rattle.std.specs.Prelude.{◌≡◌};
ghost use Rattle.host.specs.Step.{late, time_outside};

use crate::Host;
use crate::time::PS_PER_NS;
use settings::Settings;

// The longest pulse with its spacer, in ps: a 0 of the largest t, then the largest h.
const LONGEST_LEG: u64 = (2 * Settings::LARGEST_T + Settings::LARGEST_H) as u64 * PS_PER_NS;

impl Host {
    #[tactic(auto, using(terms::proofs::Refusals::walk), unfolding(crate::specs::Step::time_outside))]
    pub(crate) fn is_outside(self) -> bool
        ensures { result ≡ time_outside self }
    {
        self.settings.is_outside() || is_late(self.session.pulses, self.time)
    }
}

// Whether a time is more than so many pulses can have taken. A product of the two that does not fit is more than any time.
#[tactic(auto, unfolding(crate::specs::Step::late))]
fn is_late(pulses: u32, time: u64) -> bool
    ensures { result ≡ late pulses time }
{
    u64::from(pulses).saturating_mul(LONGEST_LEG) < time
}
