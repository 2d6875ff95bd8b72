// An image made by rule, for the programs that load one: no file has to hold it.
#![tactic(auto)]

ghost use Rattle.std.specs.Prelude.{◌≡◌};
ghost use Rattle.image.specs.Longest.{longest_image};

use load::Load;

const LENGTH: usize = Load::LARGEST_LENGTH.0;

// The longest image that a start takes: the words at 6, 8 and 10 are 16, the length and 32,768, and the first byte makes the sum 20.
pub fn longest() -> [u8; 32_760]
    ensures { result ≡ longest_image }
{
    let mut image = [0u8; 32_760];
    // By index: of what is written behind `iter_mut().enumerate().skip(16)` the proof knows nothing.
    for at in 16..LENGTH {
        image[at] = (at % 251) as u8;
    }
    image[6] = 16;
    image[8] = (LENGTH % 256) as u8;
    image[9] = (LENGTH / 256) as u8;
    image[11] = 128;
    image[0] = 20u8.wrapping_sub(lent::sum(&image));
    image
}
