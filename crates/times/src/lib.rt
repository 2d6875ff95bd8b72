// How long a planned session takes with the settings of a bench, exactly and in closed form: every low and every spacer is a whole number
// of nanoseconds. And what the old bench said, which cut each of them to whole microseconds before it added.
#![tactic(auto)]

ghost use Rattle.std.specs.Prelude.{false, ◌≡◌, ◌+◌, ◌*◌, ◌≤◌};
ghost use Rattle.terms.specs.Refusals.{told};
ghost use Rattle.settings.specs.Settings.{settings_outside};
ghost use Rattle.counts.specs.Counts.{sum_of};
ghost use Rattle.times.specs.Times.{counts_outside, lasting, old_lasting, plan_outside, timed, times_of};

use counts::{Counts, Plan};
use settings::Settings;
use terms::Refusal;

// The exact times of a plan: each phase of one tracker, one tracker, and all of them, in ns; and the old bench's figures of one tracker and
// of all, in us.
// Ten of its fields are by phase, as in `counts::Plan`, which says why they are not one generic record.
#[derive(Clone, Copy)]
pub struct Times {
    pub calibration: u64,
    pub handshake: u64,
    pub connection: u64,
    pub version: u64,
    pub command: u64,
    pub size: u64,
    pub image: u64,
    pub ram: u64,
    pub programming: u64,
    pub verification: u64,
    pub one: u64,
    pub all: u64,
    pub old_one: u64,
    pub old_all: u64,
}

impl Times {
    // The times of a plan for so many trackers; 13 for settings or counts that no start hands out.
    #[tactic(auto, unfolding(crate::specs::Times::timed, terms::specs::Choice::when))]
    pub fn of(plan: Plan, settings: Settings, trackers: u16) -> Result<Times, Refusal>
        ensures { told result ≡ timed plan settings trackers }
    {
        if settings.is_outside() || is_outside(plan) {
            return Err(Refusal::Record);
        }
        Ok(Bench { settings }.times_of(plan, trackers))
    }
}

// The most pulses that a session has. No count of it is larger.
const MOST: u32 = 264_362;

#[tactic(auto, using(terms::proofs::Refusals::walk), unfolding(crate::specs::Times::plan_outside, terms::specs::Choice::either))]
fn is_outside(plan: Plan) -> bool
    ensures { result ≡ plan_outside plan }
{
    exceeds(plan.calibration)
        || exceeds(plan.handshake)
        || exceeds(plan.connection)
        || exceeds(plan.version)
        || exceeds(plan.command)
        || exceeds(plan.size)
        || exceeds(plan.image)
        || exceeds(plan.ram)
        || exceeds(plan.programming)
        || exceeds(plan.verification)
}

#[tactic(auto, unfolding(crate::specs::Times::counts_outside, terms::specs::Choice::either))]
fn exceeds(counts: Counts) -> bool
    ensures { result ≡ counts_outside counts }
{
    MOST < counts.ones || MOST < counts.zeros || MOST < counts.spacers || MOST < counts.silent
}

// Settings that are within their bounds.
#[derive(Clone, Copy)]
struct Bench {
    settings: Settings,
    ghost within: { settings_outside settings ≡ false },
}

impl Bench {
    #[tactic(auto, using(counts::proofs::Sums::sum_is))]
    fn times_of(self, plan: Plan, trackers: u16) -> Times
        requires { plan_outside plan ≡ false }
        ensures { result ≡ times_of plan self.settings trackers }
    {
        let calibration = self.lasting(plan.calibration);
        let handshake = self.lasting(plan.handshake);
        let connection = self.lasting(plan.connection);
        let version = self.lasting(plan.version);
        let command = self.lasting(plan.command);
        let size = self.lasting(plan.size);
        let image = self.lasting(plan.image);
        let ram = self.lasting(plan.ram);
        let programming = self.lasting(plan.programming);
        let verification = self.lasting(plan.verification);
        let one = calibration
            + handshake
            + connection
            + version
            + command
            + size
            + image
            + ram
            + programming
            + verification;
        let old_one = self.old_sum(plan);
        Times {
            calibration,
            handshake,
            connection,
            version,
            command,
            size,
            image,
            ram,
            programming,
            verification,
            one,
            all: for_all(one, trackers),
            old_one,
            old_all: for_all(old_one, trackers),
        }
    }

    // How long a phase lasts, in ns. It is less than 3,000 s, so that no sum passes 64 bits.
    #[tactic(auto, using(crate::proofs::Bounds::lows_most, crate::proofs::Bounds::spacers_most, crate::proofs::Bounds::silent_most, crate::proofs::Bounds::all_most), unfolding(crate::specs::Times::lasting))]
    fn lasting(self, counts: Counts) -> u64
        requires { counts_outside counts ≡ false }
        ensures { (result ≡ lasting self.settings counts) × (result ≤ 3000000000000) }
    {
        let Settings { t, h, .. } = self.settings;
        let lows = (u64::from(counts.ones) + 2 * u64::from(counts.zeros)) * u64::from(t);
        let spacers = u64::from(counts.spacers) * u64::from(h);
        lows + spacers + u64::from(counts.silent) * u64::from(h.max(LONGER))
    }

    // The same of all phases, as the old bench had it, in us.
    #[tactic(auto, using(counts::proofs::Sums::sum_is))]
    fn old_sum(self, plan: Plan) -> u64
        requires { plan_outside plan ≡ false }
        ensures { (result ≡ sum_of (old_lasting self.settings) plan) × (result ≤ 30000000000000) }
    {
        self.old_lasting(plan.calibration)
            + self.old_lasting(plan.handshake)
            + self.old_lasting(plan.connection)
            + self.old_lasting(plan.version)
            + self.old_lasting(plan.command)
            + self.old_lasting(plan.size)
            + self.old_lasting(plan.image)
            + self.old_lasting(plan.ram)
            + self.old_lasting(plan.programming)
            + self.old_lasting(plan.verification)
    }

    #[tactic(auto, using(crate::proofs::Bounds::old_ones_most, crate::proofs::Bounds::old_zeros_most, crate::proofs::Bounds::old_spacers_most, crate::proofs::Bounds::old_silent_most, crate::proofs::Bounds::old_most), unfolding(crate::specs::Times::old_lasting))]
    fn old_lasting(self, counts: Counts) -> u64
        requires { counts_outside counts ≡ false }
        ensures { (result ≡ old_lasting self.settings counts) × (result ≤ 3000000000000) }
    {
        let Settings { t, h, .. } = self.settings;
        let ones = u64::from(counts.ones) * (u64::from(t) / 1_000);
        let zeros = u64::from(counts.zeros) * (2 * u64::from(t) / 1_000);
        let spacers = u64::from(counts.spacers) * (u64::from(h) / 1_000);
        ones + zeros + spacers + u64::from(counts.silent) * (u64::from(h.max(LONGER)) / 1_000)
    }
}

// The spacer after a silent pair is at least so long, in ns.
const LONGER: u32 = 10_000_000;

fn for_all(one: u64, trackers: u16) -> u64
    requires { one ≤ 30000000000000 }
    ensures { result ≡ one * trackers }
{
    one * u64::from(trackers)
}
