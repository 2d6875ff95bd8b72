// What a start accepts beside its settings: a command with its image.
#![tactic(auto)]

ghost use Rattle.std.specs.Prelude.{◌≡◌};
ghost use Rattle.terms.specs.Refusals.{told};
ghost use Rattle.load.specs.Load.{accepted, load_outside, other_image};

mod image;

use terms::Refusal;
use units::Bytes;

// A command, and the length of the image that goes with it: 0 for command 0, which has none.
#[derive(Clone, Copy, PartialEq, Eq, Debug)]
pub struct Load {
    pub command: u32,
    pub length: Bytes,
}

impl Load {
    pub const LARGEST_COMMAND: u32 = 3;

    pub const SMALLEST_LENGTH: Bytes = Bytes(16);

    pub const LARGEST_LENGTH: Bytes = Bytes(32_760);

    // The load, or the first refusal that applies: of the command, or of the image. Command 0 has no image, and what is lent as one is not
    // looked at.
    #[tactic(auto, using(terms::proofs::Refusals::walk, crate::proofs::Loads::load_bare, crate::proofs::Loads::load_whole), unfolding(crate::specs::Load::accepted))]
    pub fn new(command: u32, image: &[u8]) -> Result<Load, Refusal>
        ensures { told result ≡ accepted command image.now }
    {
        if Self::LARGEST_COMMAND < command {
            return Err(Refusal::Command);
        }
        if command == 0 {
            return Ok(Load {
                command,
                length: Bytes(0),
            });
        }
        if image::is_bad_length(Bytes(image.len())) {
            return Err(Refusal::Length);
        }
        if image::names_other_length(image) {
            return Err(Refusal::NamedLength);
        }
        if image::starts_elsewhere(image) {
            return Err(Refusal::Start);
        }
        if image::has_bad_stack(image) {
            return Err(Refusal::Stack);
        }
        if image::sums_otherwise(image) {
            return Err(Refusal::Sum);
        }
        Ok(Load {
            command,
            length: Bytes(image.len()),
        })
    }

    // Whether the command or the length is one that no start hands out.
    #[tactic(auto, using(terms::proofs::Refusals::walk), unfolding(crate::specs::Load::load_outside, terms::specs::Choice::when))]
    pub fn is_outside(self) -> bool
        ensures { result ≡ load_outside self }
    {
        if self.command == 0 {
            return self.length != Bytes(0);
        }
        Self::LARGEST_COMMAND < self.command || image::is_bad_length(self.length)
    }

    // Whether a step is lent an image of another length than the start was. Command 0 looks at none.
    #[tactic(auto, using(terms::proofs::Refusals::walk), unfolding(crate::specs::Load::other_image, terms::specs::Choice::when))]
    pub fn is_other_image(self, image: &[u8]) -> bool
        ensures { result ≡ other_image self image.now }
    {
        self.command != 0 && image.len() != self.length.0
    }
}
