// The pulses of a run: each sent by the host, measured, and played to the chip.
ghost use Rattle.std.specs.Prelude.{◌≡◌, ◌-◌};
ghost use Rattle.joined.specs.Joined.{listened, met, played, pulsed, rounded_down, waited};
ghost use Rattle.joined.specs.Run.{after, budget, state};
ghost use Rattle.units.specs.Units.{loops_in};

use crate::Joined;
use chip::Chip;
use host::Sent;
use units::{Loops, Seen, Ticks};

// No session has more pulses: 32,760 bytes, and every wait to its last pair.
const BUDGET: u32 = 264_362;

// How the time between two edges is measured: ticks of `p` ps, in loops of `l` ps.
#[derive(Clone, Copy)]
pub(crate) struct Clock {
    pub(crate) p: u32,
    pub(crate) l: u32,
}

impl Clock {
    fn loops(self, from: Ticks, to: Ticks) -> Loops
        ensures { result.0 ≡ loops_in (to.0 - from.0) self.p self.l }
    {
        Ticks(to.0.saturating_sub(from.0)).to_loops(self.p, self.l)
    }
}

// Pulses until the host has ended.
pub(crate) fn play(
    start: Joined,
    image: &[u8],
    clock: Clock,
    ram: &mut [u8],
    eeprom: &mut [u8],
) -> Joined
    ensures { state result ram.new eeprom.new ≡ played (rounded_down clock.p clock.l) image.now budget (state start ram.old eeprom.old) }
{
    let mut joined = start;
    for n in 0..BUDGET {
        if joined.host.end().is_some() {
            return joined;
        }
        joined = pulse(joined, image, clock, ram, eeprom);
    }
    joined
}

fn pulse(joined: Joined, image: &[u8], clock: Clock, ram: &mut [u8], eeprom: &mut [u8]) -> Joined
    ensures { state result ram.new eeprom.new ≡ pulsed (rounded_down clock.p clock.l) image.now (state joined ram.old eeprom.old) }
{
    let seen = bits::sees(joined.host.session.place, joined.reply);
    match joined.host.step(image, seen) {
        Ok(sent) => listen(joined, sent, clock, ram, eeprom),
        Err(_) => joined,
    }
}

// The pulse played to the chip, unless that has ended.
fn listen(joined: Joined, sent: Sent, clock: Clock, ram: &mut [u8], eeprom: &mut [u8]) -> Joined
    ensures { state result ram.new eeprom.new ≡ met joined.chip sent (listened (rounded_down clock.p clock.l) (state joined ram.old eeprom.old) sent) }
{
    let chip = joined.chip;
    if chip.end().is_some() {
        return met(sent, chip, Seen::Silence);
    }
    let wait = waited(joined.host.session.pulses, joined.rise, sent.fall, clock);
    let low = clock.loops(sent.fall, sent.rise);
    match chip.step(ram, eeprom, wait, low) {
        Ok(played) => met(sent, played.chip, played.reply),
        Err(_) => met(sent, chip, Seen::Silence),
    }
}

// The loops of the wait before a pulse, between two edges; before the first pulse sent it measures 0.
#[tactic(auto, using(terms::proofs::Refusals::walk), unfolding(crate::specs::Joined::waited))]
fn waited(pulses: u32, rise: Ticks, fall: Ticks, clock: Clock) -> Loops
    ensures { result.0 ≡ waited (rounded_down clock.p clock.l) pulses (fall.0 - rise.0) }
{
    if pulses == 0 {
        return Loops(0);
    }
    clock.loops(rise, fall)
}

// Both sides after a pulse.
fn met(sent: Sent, chip: Chip, reply: Seen) -> Joined
    ensures { result ≡ after sent chip reply }
{
    Joined {
        host: sent.host,
        chip,
        rise: sent.rise,
        risen: sent.risen,
        reply,
    }
}
