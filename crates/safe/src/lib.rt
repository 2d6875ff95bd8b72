// For which chips a load by some settings is proved to succeed.
#![tactic(auto)]

ghost use Rattle.std.specs.Prelude.{◌≡◌};
ghost use Rattle.safe.specs.Safe.{largest_loop, loops_of, safe_of};

use settings::Settings;

// The shortest loop of a real chip, and the longest, in ps.
pub const SHORTEST: u32 = 400_000;

pub const LONGEST: u32 = 1_000_000;

// The chips' loops for which t is at least five of them and four ticks: all of a real chip's from the shortest up to so many ps, or none.
#[tactic(auto, unfolding(crate::specs::Safe::loops_of, terms::specs::Choice::when))]
pub fn loops(settings: Settings) -> Option<u32>
    ensures { result ≡ loops_of settings }
{
    let largest = largest(settings.t, settings.p);
    if largest < SHORTEST {
        return None;
    }
    Some(largest)
}

// Whether the margin holds for every chip, and h is at least t.
#[tactic(auto, unfolding(crate::specs::Safe::safe_of, terms::specs::Choice::both))]
pub fn is_safe(settings: Settings) -> bool
    ensures { result ≡ safe_of settings }
{
    LONGEST <= largest(settings.t, settings.p) && settings.t <= settings.h
}

// The largest loop of which five and four ticks fit into t, at most the longest.
#[tactic(auto, unfolding(crate::specs::Safe::largest_loop))]
fn largest(t: u32, p: u32) -> u32
    ensures { result ≡ largest_loop t p }
{
    let unit = 1_000 * u64::from(t);
    let ticks = 4 * u64::from(p);
    (unit.saturating_sub(ticks) / 5).min(u64::from(LONGEST)) as u32
}
