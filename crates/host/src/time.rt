// Lengths in picoseconds, and the ticks of edges.
ghost use Rattle.std.specs.Prelude.{◌≡◌, ◌<◌};
ghost use Rattle.host.specs.Time.{low, spacer, tick};

use settings::Settings;
use units::Ticks;

// The settings' t and h are in ns.
pub(crate) const PS_PER_NS: u64 = 1_000;

// The shortest spacer, in ns, after a silent pair of a wait: the chip is given time for what it does.
const SILENT_SPACER: u32 = 10_000_000;

#[tactic(auto, using(terms::proofs::Refusals::walk), unfolding(crate::specs::Time::low))]
pub(crate) fn low(settings: Settings, bit: bool) -> u64
    ensures { result ≡ low settings bit }
{
    let t = u64::from(settings.t) * PS_PER_NS;
    if bit { t } else { 2 * t }
}

#[tactic(auto, using(terms::proofs::Refusals::walk), unfolding(crate::specs::Time::spacer))]
pub(crate) fn spacer(settings: Settings, silent: bool) -> u64
    ensures { result ≡ spacer settings silent }
{
    let h = if silent {
        settings.h.max(SILENT_SPACER)
    } else {
        settings.h
    };
    u64::from(h) * PS_PER_NS
}

pub(crate) fn tick(settings: Settings, time: u64) -> Ticks
    requires { 0 < settings.p }
    ensures { result ≡ tick settings time }
{
    Ticks(time / u64::from(settings.p))
}
