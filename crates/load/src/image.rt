// The rows of the refusal table that look at an image. A word is looked at only in an image long enough to have it.
ghost use Rattle.std.specs.Prelude.{◌≡◌};
ghost use Rattle.load.specs.Image.{bad_length, other_length, other_start, bad_stack, other_sum};

use crate::Load;
use units::Bytes;

// Where the words stand that an image tells of itself.
const START_AT: Bytes = Bytes(6);

const LENGTH_AT: Bytes = Bytes(8);

const D_AT: Bytes = Bytes(10);

// Where every image's code starts.
const START: u16 = 16;

// The bytes of the two flag longs, which the chip stores between the image and D.
const FLAGS: Bytes = Bytes(8);

// What the bytes of a good image sum to, modulo 256.
const SUM: u8 = 20;

#[tactic(auto, using(terms::proofs::Refusals::walk), unfolding(crate::specs::Image::bad_length))]
pub(crate) fn is_bad_length(length: Bytes) -> bool
    ensures { result ≡ bad_length length.0 }
{
    length < Load::SMALLEST_LENGTH || Load::LARGEST_LENGTH < length || length.0 % 4 != 0
}

#[tactic(auto, unfolding(crate::specs::Image::other_length))]
pub(crate) fn names_other_length(image: &[u8]) -> bool
    ensures { result ≡ other_length image.now }
{
    usize::from(lent::word(image, LENGTH_AT)) != image.len()
}

#[tactic(auto, unfolding(crate::specs::Image::other_start))]
pub(crate) fn starts_elsewhere(image: &[u8]) -> bool
    ensures { result ≡ other_start image.now }
{
    lent::word(image, START_AT) != START
}

#[tactic(auto, using(terms::proofs::Refusals::walk), unfolding(crate::specs::Image::bad_stack))]
pub(crate) fn has_bad_stack(image: &[u8]) -> bool
    ensures { result ≡ bad_stack image.now }
{
    let d = usize::from(lent::word(image, D_AT));
    d % 4 != 0 || d < image.len() + FLAGS.0 || Bytes::MEMORY.0 < d
}

#[tactic(auto, unfolding(crate::specs::Image::other_sum))]
pub(crate) fn sums_otherwise(image: &[u8]) -> bool
    ensures { result ≡ other_sum image.now }
{
    lent::sum(image) != SUM
}
