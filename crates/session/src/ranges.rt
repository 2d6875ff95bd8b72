// The ranges of a session's fields.
ghost use Rattle.std.specs.Prelude.{◌≡◌};
ghost use Rattle.session.specs.Ranges.{session_outside};

use crate::Session;

impl Session {
    #[tactic(auto, using(terms::proofs::Refusals::walk), unfolding(crate::specs::Ranges::session_outside))]
    pub(crate) fn is_outside(self) -> bool
        ensures { result ≡ session_outside self }
    {
        self.load.is_outside()
            || range::is_outside(self.place, self.load)
            || range::pulses_before(self.place, self.load) < u64::from(self.pulses)
            || u64::from(self.ones) + u64::from(self.zeros) != u64::from(self.pulses)
    }
}
