// The bit sequence by which host and chip know each other: an 8-bit state, its advance, and the numbered draws.
#![tactic(auto)]

ghost use Rattle.std.specs.Prelude.{◌≡◌};
ghost use Rattle.sequence.specs.Sequence.{advanced, draw};

mod states;

// The number of states before the sequence repeats.
pub const PERIOD: u32 = 255;

// The handshake takes the draws before this one, the connection goes on with it.
pub const FIRST_CONNECTION_DRAW: u32 = 251;

// The state after `state`: shifted left one place, with the exclusive or of its bits 7, 5, 4 and 1 as the new bit 0.
pub fn advance(state: u8) -> u8
    ensures { result ≡ advanced state }
{
    state << 1 | (state >> 7 ^ state >> 5 ^ state >> 4 ^ state >> 1) & 1
}

// Draw `k`, numbered from 1. Draw 0 is the one before the first: the sequence is a circle, so that it is draw 255.
pub fn draw(k: u32) -> bool
    ensures { result ≡ draw k }
{
    let place = (k % PERIOD + (PERIOD - 1)) % PERIOD;
    states::state_at(place as usize) & 1 == 1
}
