// Where a session stands, without time: its phases, each with its pulses, and its endings.
#![tactic(auto)]

ghost use Rattle.std.specs.Prelude.{◌≡◌, ◌*◌};
ghost use Rattle.place.specs.Endings.{end_at, number, told_end};
ghost use Rattle.place.specs.Phases.{carries, ended, image_pulses, pairs, places};

use load::Load;
use std::fmt;

// What the host waits for when it waits for an acknowledgement.
#[derive(Clone, Copy, PartialEq, Eq, Debug)]
pub enum Acknowledgement {
    Ram,
    Programming,
    Verification,
}

// How a session ends, with the number that 01's table gives it. It is lost by silence in a connection or version pair, by a wrong
// connection bit, or by silence in a wait's last pair.
#[derive(Clone, Copy, PartialEq, Eq, Debug)]
pub enum Ending {
    Done = 0,
    Lost = 1,
    WrongVersion = 2,
    BadRam = 3,
    BadProgramming = 4,
    BadVerification = 5,
}

// What a session is at. A version holds the bits of it that were seen so far, shifted in from the top; `Zeros` are the 32 zero bits
// after a wrong version.
#[derive(Clone, Copy, PartialEq, Eq, Debug)]
pub enum Phase {
    Calibration,
    Handshake,
    Connection,
    Version(u8),
    Command,
    Zeros,
    Size,
    Image,
    Wait(Acknowledgement),
    Ended(Ending),
}

// What a phase carries: pairs, each the bits 1, 0; the bits of the handshake, of a value or of the image; or nothing, once the session
// has ended.
#[derive(Clone, Copy, PartialEq, Eq, Debug)]
pub enum Carries {
    Pairs,
    Bits,
    Nothing,
}

// The next pulse to send: the phase, and the number of its pulses that were sent.
#[derive(Clone, Copy, PartialEq, Eq, Debug)]
pub struct Place {
    pub phase: Phase,
    pub index: u32,
}

impl Acknowledgement {
    fn pulses(self) -> u32
        ensures { result ≡ pairs self * 2 }
    {
        match self {
            Acknowledgement::Ram => Phase::RAM_PULSES,
            Acknowledgement::Programming => Phase::PROGRAMMING_PULSES,
            Acknowledgement::Verification => Phase::VERIFICATION_PULSES,
        }
    }
}

impl Ending {
    pub fn number(self) -> u8
        ensures { result ≡ number self }
    {
        self as u8
    }
}

impl fmt::Display for Ending {
    fn fmt<W: fmt::Write>(&self, f: &mut fmt::Formatter<W>) -> fmt::Result {
        write!(f, "{}", self.number())
    }
}

impl Phase {
    // The pulses of each phase. A value is a command, a size, or the zeros after a wrong version; the waits are at their longest.
    pub const CALIBRATION_PULSES: u32 = 2;

    pub const HANDSHAKE_PULSES: u32 = 250;

    pub const CONNECTION_PULSES: u32 = 250 * 2;

    pub const VERSION_PULSES: u32 = 8 * 2;

    pub const VALUE_PULSES: u32 = 32;

    pub const RAM_PULSES: u32 = 25 * 2;

    pub const PROGRAMMING_PULSES: u32 = 500 * 2;

    pub const VERIFICATION_PULSES: u32 = 200 * 2;

    // The pulses that a load's session sends in this phase; one place, where nothing is sent, for a session that has ended.
    pub fn places(self, load: Load) -> u32
        ensures { result ≡ places load self }
    {
        match self {
            Phase::Calibration => Phase::CALIBRATION_PULSES,
            Phase::Handshake => Phase::HANDSHAKE_PULSES,
            Phase::Connection => Phase::CONNECTION_PULSES,
            Phase::Version(_) => Phase::VERSION_PULSES,
            Phase::Command | Phase::Zeros | Phase::Size => Phase::VALUE_PULSES,
            Phase::Image => image_pulses(load),
            Phase::Wait(awaited) => awaited.pulses(),
            Phase::Ended(_) => 1,
        }
    }

    pub fn carries(self) -> Carries
        ensures { result ≡ carries self }
    {
        match self {
            Phase::Calibration | Phase::Connection | Phase::Version(_) | Phase::Wait(_) =>
                Carries::Pairs,
            Phase::Ended(_) => Carries::Nothing,
            _ => Carries::Bits,
        }
    }

    // How the session has ended; none while it goes on.
    pub fn end(self) -> Option<Ending>
        ensures { told_end result ≡ end_at self }
    {
        match self {
            Phase::Ended(ending) => Some(ending),
            _ => None,
        }
    }
}

fn image_pulses(load: Load) -> u32
    ensures { result ≡ image_pulses load }
{
    load.length.0.min(Load::LARGEST_LENGTH.0) as u32 * 8
}

impl Place {
    // Whether the session has ended.
    pub fn has_ended(self) -> bool
        ensures { result ≡ ended self.phase }
    {
        self.phase.end().is_some()
    }
}
