// The phases of a chip: what the next pulse is to it, from the calibration to its ending.
#![tactic(auto)]

ghost use Rattle.std.specs.Prelude.{◌≡◌};
ghost use Rattle.phases.specs.Endings.{end_at, told_end};
ghost use Rattle.phases.specs.Phases.{ended};
ghost use Rattle.phases.specs.Ranges.{acknowledgement_outside, draw_outside, phase_outside, size_outside};
ghost use Rattle.phases.specs.Ranges.{least_acknowledged, least_after, long_outside, reply_outside};

use std::fmt;
use units::{Longs, Loops};

// What the chip acknowledges: the load stored with a good checksum, the programming, the verification; or that one of them failed.
#[derive(Clone, Copy, PartialEq, Eq, Debug)]
pub enum Acknowledgement {
    Stored,
    Programmed,
    Verified,
    Failed,
}

// A bit that the chip replies: bit k of its connection, 250 draws and then 8 version bits, or an acknowledgement.
#[derive(Clone, Copy, PartialEq, Eq, Debug)]
pub enum Reply {
    Connection(u32),
    Acknowledging(Acknowledgement),
}

// How the chip ends: launched from download, launched from EEPROM, shut down, or off chart.
#[derive(Clone, Copy, PartialEq, Eq, Debug)]
pub enum Ending {
    Launched,
    Booted,
    Shut,
    Off,
}

impl fmt::Display for Ending {
    fn fmt<W: fmt::Write>(&self, f: &mut fmt::Formatter<W>) -> fmt::Result {
        f.write_str(match self {
            Ending::Launched => "launched",
            Ending::Booted => "booted",
            Ending::Shut => "shut",
            Ending::Off => "off",
        })
    }
}

// What the next pulse is to the chip: the first calibration pulse; the second, with the first low; a handshake bit, by the number of
// its draw; the first pulse of a reply; the rest of it; a bit of the command, of the size, or of a long of the image, each with the
// number of bits before it and those bits, shifted in from the top, and a long with its own number between them; a pulse to align on;
// or nothing any more.
#[derive(Clone, Copy, PartialEq, Eq, Debug)]
pub enum Phase {
    First,
    Second(Loops),
    Handshake(u32),
    Answer(Reply),
    Rest(Reply),
    Command(u8, u32),
    Size(u8, u32),
    Long(u8, Longs, u32),
    Align(Acknowledgement),
    Ended(Ending),
}

impl Phase {
    // The longest first low that is no time-out.
    pub const LARGEST_FIRST_LOW: Loops = Loops(374_999);

    pub const LAST_DRAW: u32 = 250;

    // 250 draws and 8 version bits, from 0.
    pub const LAST_CONNECTION_BIT: u32 = 257;

    // A value has 32 bits, from 0.
    pub const LAST_BIT: u8 = 31;

    pub const LARGEST_COMMAND: u32 = 3;

    pub const LARGEST_SIZE: Longs = Longs(8_192);

    // Whether the chip has ended.
    pub fn has_ended(self) -> bool
        ensures { result ≡ ended self }
    {
        matches!(self, Phase::Ended(_))
    }

    // How the chip has ended; `None` while it still listens.
    pub fn end(self) -> Option<Ending>
        ensures { told_end result ≡ end_at self }
    {
        match self {
            Phase::Ended(ending) => Some(ending),
            _ => None,
        }
    }

    // Whether a chip with this command and size has no such phase.
    pub fn is_outside(self, command: u32, size: Longs) -> bool
        ensures { result ≡ phase_outside command size.0 self }
    {
        match self {
            Phase::First => false,
            Phase::Second(first) => Phase::LARGEST_FIRST_LOW < first,
            Phase::Handshake(k) => is_no_draw(k),
            Phase::Answer(reply) | Phase::Rest(reply) => reply.is_outside(command),
            Phase::Command(bits, _) => Phase::LAST_BIT < bits,
            Phase::Size(bits, _) => is_no_size_bit(command, bits),
            Phase::Long(bits, k, _) => is_no_long_bit(command, size, k, bits),
            Phase::Align(acknowledgement) => acknowledgement.is_outside(command),
            Phase::Ended(ending) => command < ending.least_command(),
        }
    }
}

impl Reply {
    fn is_outside(self, command: u32) -> bool
        ensures { result ≡ reply_outside command self }
    {
        match self {
            Reply::Connection(k) => Phase::LAST_CONNECTION_BIT < k,
            Reply::Acknowledging(acknowledgement) => acknowledgement.is_outside(command),
        }
    }
}

impl Acknowledgement {
    // Whether the command does not come to it.
    fn is_outside(self, command: u32) -> bool
        ensures { result ≡ acknowledgement_outside command self }
    {
        command < self.least_command()
    }

    fn least_command(self) -> u32
        ensures { result ≡ least_acknowledged self }
    {
        match self {
            Acknowledgement::Stored | Acknowledgement::Failed => 1,
            Acknowledgement::Programmed | Acknowledgement::Verified => 2,
        }
    }
}

impl Ending {
    fn least_command(self) -> u32
        ensures { result ≡ least_after self }
    {
        match self {
            Ending::Launched | Ending::Off => 1,
            Ending::Booted | Ending::Shut => 0,
        }
    }
}

#[tactic(auto, unfolding(terms::specs::Choice::either, crate::specs::Ranges::draw_outside))]
fn is_no_draw(k: u32) -> bool
    ensures { result ≡ draw_outside k }
{
    k == 0 || Phase::LAST_DRAW < k
}

#[tactic(auto, unfolding(terms::specs::Choice::either, crate::specs::Ranges::size_outside))]
fn is_no_size_bit(command: u32, bits: u8) -> bool
    ensures { result ≡ size_outside command bits }
{
    command < 1 || Phase::LAST_BIT < bits
}

#[tactic(auto, unfolding(terms::specs::Choice::either, crate::specs::Ranges::long_outside))]
fn is_no_long_bit(command: u32, size: Longs, k: Longs, bits: u8) -> bool
    ensures { result ≡ long_outside command size.0 k.0 bits }
{
    size <= k || is_no_size_bit(command, bits)
}
