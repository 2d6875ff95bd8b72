// What a planned session sends, phase by phase, counted without time. In it the chip answers the second pair of each wait with 0.
#![tactic(auto)]

ghost use Rattle.std.specs.Prelude.{◌≡◌, ◌+◌, ◌*◌, ◌≤◌, ◌<◌, length};
ghost use Rattle.terms.specs.Refusals.{taken, told};
ghost use Rattle.load.specs.Load.{accepted, load_of};
ghost use Rattle.counts.specs.Counts.{after_version, bits_with, byte_ones, counted, image_ones, ones_of, pairs_of, planned, unspaced, value_ones, zeros_of};

use load::Load;
use terms::Refusal;

// Bits 1, bits 0, ordinary spacers, and the longer spacers after silent pairs.
#[derive(Clone, Copy)]
pub struct Counts {
    pub ones: u32,
    pub zeros: u32,
    pub spacers: u32,
    pub silent: u32,
}

// The counts of each phase, in the order in which they come; none for one that the command has not. The spacer after a phase's last pulse
// is its own, and after the session's last pulse there is none.
// Ten fields by phase, as in `ticks::PhaseTicks` and `times::Times`: one generic record would have to stand inside each, since their calls
// cannot be its own, a field deeper at every use, and no call would be shared.
#[derive(Clone, Copy)]
pub struct Plan {
    pub calibration: Counts,
    pub handshake: Counts,
    pub connection: Counts,
    pub version: Counts,
    pub command: Counts,
    pub size: Counts,
    pub image: Counts,
    pub ram: Counts,
    pub programming: Counts,
    pub verification: Counts,
}

impl Plan {
    // The plan of a command with its image, or the first refusal that applies, 4 to 9.
    #[tactic(auto, using(crate::proofs::Plans::counted_refused))]
    pub fn new(command: u32, image: &[u8]) -> Result<Plan, Refusal>
        ensures { told result ≡ counted command image.now }
    {
        Load::new(command, image)?;
        Ok(planned(command, image))
    }

    // `ones` and `zeros` differ in a field alone: a sum that takes the field as a closure would need a contract over it, and be no shorter.

    // The bits 1 of all phases.
    #[tactic(auto, using(crate::proofs::Sums::sum_is))]
    pub fn ones(self) -> u64
        ensures { result ≡ ones_of self }
    {
        let before_size = u64::from(self.calibration.ones)
            + u64::from(self.handshake.ones)
            + u64::from(self.connection.ones)
            + u64::from(self.version.ones)
            + u64::from(self.command.ones);
        let from_size = u64::from(self.size.ones)
            + u64::from(self.image.ones)
            + u64::from(self.ram.ones)
            + u64::from(self.programming.ones)
            + u64::from(self.verification.ones);
        before_size + from_size
    }

    // The bits 0 of all phases.
    #[tactic(auto, using(crate::proofs::Sums::sum_is))]
    pub fn zeros(self) -> u64
        ensures { result ≡ zeros_of self }
    {
        let before_size = u64::from(self.calibration.zeros)
            + u64::from(self.handshake.zeros)
            + u64::from(self.connection.zeros)
            + u64::from(self.version.zeros)
            + u64::from(self.command.zeros);
        let from_size = u64::from(self.size.zeros)
            + u64::from(self.image.zeros)
            + u64::from(self.ram.zeros)
            + u64::from(self.programming.zeros)
            + u64::from(self.verification.zeros);
        before_size + from_size
    }
}

const NONE: Counts = Counts {
    ones: 0,
    zeros: 0,
    spacers: 0,
    silent: 0,
};

// A wait of two pairs: the first is silent, the second is answered.
const ANSWERED: Counts = Counts {
    ones: 2,
    zeros: 2,
    spacers: 3,
    silent: 1,
};

#[tactic(auto, using(crate::proofs::Plans::image_short, crate::proofs::Plans::planned_0, crate::proofs::Plans::planned_1, crate::proofs::Plans::planned_others))]
fn planned(command: u32, image: &[u8]) -> Plan
    requires { accepted command image.now ≡ taken (load_of command image.now) }
    ensures { result ≡ planned command image.now }
{
    let commanded = value_bits(command);
    if command == 0 {
        return after_version(unspaced(commanded), NONE, NONE, NONE, NONE, NONE);
    }
    let sized = value_bits(image.len() as u32 / 4);
    let loaded = image_bits(image);
    let last = unspaced(ANSWERED);
    if command == 1 {
        return after_version(commanded, sized, loaded, last, NONE, NONE);
    }
    after_version(commanded, sized, loaded, ANSWERED, ANSWERED, last)
}

// The plan that goes on so after the four phases that every command has.
#[tactic(auto, using(crate::proofs::Ones::draws_ones))]
fn after_version(
    command: Counts,
    size: Counts,
    image: Counts,
    ram: Counts,
    programming: Counts,
    verification: Counts,
) -> Plan
    ensures { result ≡ after_version command size image ram programming verification }
{
    Plan {
        calibration: pairs(1),
        handshake: bits(250, 127),
        connection: pairs(250),
        version: pairs(8),
        command,
        size,
        image,
        ram,
        programming,
        verification,
    }
}

// The bits of a value of 32 bits, and those of an image.
#[tactic(auto, using(crate::proofs::Ones::count_is, crate::proofs::Ones::ones_most))]
fn value_bits(value: u32) -> Counts
    ensures { result ≡ bits_with 32 (value_ones value) }
{
    bits(32, value.count_ones())
}

#[tactic(auto, using(crate::proofs::Ones::image_most))]
fn image_bits(image: &[u8]) -> Counts
    requires { length image.now ≤ 32760 }
    ensures { result ≡ bits_with (length image.now * 8) (image_ones image.now) }
{
    bits(image.len() as u32 * 8, image_ones(image))
}

// So many bits, of which so many are ones.
fn bits(n: u32, ones: u32) -> Counts
    requires { ones ≤ n }
    ensures { result ≡ bits_with n ones }
{
    Counts {
        ones,
        zeros: n - ones,
        spacers: n,
        silent: 0,
    }
}

// So many pairs of the bits 1, 0.
fn pairs(n: u32) -> Counts
    requires { n ≤ 250 }
    ensures { result ≡ pairs_of n }
{
    Counts {
        ones: n,
        zeros: n,
        spacers: n * 2,
        silent: 0,
    }
}

// Without the spacer after the last pulse.
fn unspaced(mut counts: Counts) -> Counts
    requires { 0 < counts.spacers }
    ensures { result ≡ unspaced counts }
{
    counts.spacers -= 1;
    counts
}

// The ones of an image's bits.
fn image_ones(image: &[u8]) -> u32
    requires { length image.now ≤ 32760 }
    ensures { result ≡ image_ones image.now }
{
    image.iter().map(|byte| byte_ones(*byte)).sum()
}

#[tactic(auto, using(crate::proofs::Ones::count_is))]
fn byte_ones(byte: u8) -> u32
    ensures { result ≡ byte_ones byte }
{
    byte.count_ones()
}
