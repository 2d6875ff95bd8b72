// The settings of a bench.
#![tactic(auto)]

ghost use Rattle.std.specs.Prelude.{◌≡◌};
ghost use Rattle.terms.specs.Refusals.{told};
ghost use Rattle.settings.specs.Settings.{checked, outside, settings_outside, slow};

use terms::Refusal;

// The figures of a bench: the unit time `t` and the spacer `h` in ns, the tick `p` in ps. With a real chip keep `h` at least `t`: see
// docs/LIMITS.md.
#[derive(Clone, Copy, PartialEq, Eq, Debug)]
pub struct Settings {
    pub t: u32,
    pub h: u32,
    pub p: u32,
}

impl Settings {
    pub const SMALLEST_T: u32 = 4_300;

    pub const LARGEST_T: u32 = 26_000;

    pub const SMALLEST_H: u32 = 4_300;

    pub const LARGEST_H: u32 = 90_000_000;

    pub const SMALLEST_P: u32 = 1_000;

    pub const LARGEST_P: u32 = 1_000_000;

    // The countdown of a chip for calibration and handshake, 375,000 loops of 400 ns, in ps.
    pub const FIRST_BUDGET: u64 = 150_000_000_000;

    // The settings, or the refusal of the first figure that lies outside its bounds, or of settings too slow for a chip's countdown.
    #[tactic(auto, using(terms::proofs::Refusals::walk), unfolding(crate::specs::Settings::checked))]
    pub fn new(t: u32, h: u32, p: u32) -> Result<Settings, Refusal>
        ensures { told result ≡ checked t h p }
    {
        if outside(t, Self::SMALLEST_T, Self::LARGEST_T) {
            return Err(Refusal::UnitTime);
        }
        if outside(h, Self::SMALLEST_H, Self::LARGEST_H) {
            return Err(Refusal::Spacer);
        }
        if outside(p, Self::SMALLEST_P, Self::LARGEST_P) {
            return Err(Refusal::Tick);
        }
        if is_slow(t, h, p) {
            return Err(Refusal::Slow);
        }
        Ok(Settings { t, h, p })
    }

    // Whether a figure lies outside its bounds, as only settings made by hand can have it.
    #[tactic(auto, using(terms::proofs::Refusals::walk), unfolding(crate::specs::Settings::settings_outside))]
    pub fn is_outside(self) -> bool
        ensures { result ≡ settings_outside self }
    {
        outside(self.t, Self::SMALLEST_T, Self::LARGEST_T)
            || outside(self.h, Self::SMALLEST_H, Self::LARGEST_H)
            || outside(self.p, Self::SMALLEST_P, Self::LARGEST_P)
            || is_slow(self.t, self.h, self.p)
    }
}

// Whether 252 pulses of `2t` with their spacers, and 504 measurements that are each up to a loop of 400 ns and a tick too long, can come to
// more than the first countdown.
#[tactic(auto, using(terms::proofs::Refusals::walk), unfolding(crate::specs::Settings::slow))]
fn is_slow(t: u32, h: u32, p: u32) -> bool
    ensures { result ≡ slow t h p }
{
    let legs = 252 * (2 * u64::from(t) + u64::from(h)) * 1_000;
    let errors = 504 * (400_000 + u64::from(p));
    Settings::FIRST_BUDGET < legs + errors
}

#[tactic(auto, using(terms::proofs::Refusals::walk), unfolding(crate::specs::Settings::outside))]
fn outside(x: u32, smallest: u32, largest: u32) -> bool
    ensures { result ≡ outside smallest largest x }
{
    x < smallest || largest < x
}
