// The work that a pulse calls for, on both memories.
ghost use Rattle.std.specs.Prelude.{◌≡◌, true};
ghost use Rattle.ram.specs.Ram.{sums_to_zero};
ghost use Rattle.chip.specs.Work.{done, loaded, went, with_long, worked};

use eeprom::{Done, Fault};
use listener::Event;
use units::Longs;

// Does the work, and says how it went.
pub(crate) fn done(fault: Fault, event: Event, ram: &mut [u8], eeprom: &mut [u8]) -> Done
    ensures { worked result ram.new eeprom.new ≡ done fault event ram.old eeprom.old }
{
    match event {
        Event::Nothing => Done { good: true, fault },
        Event::Store(k, long) => stored(fault, ram, k, long),
        Event::Finish(k, long) => finished(fault, ram, k, long),
        Event::Program => fault.program(ram, eeprom),
        Event::Verify => Done {
            good: fault.verify(ram, eeprom),
            fault,
        },
        Event::Launch => Done {
            good: ram::is_launchable(ram),
            fault,
        },
        Event::Boot => Done {
            good: fault.boot(ram, eeprom),
            fault,
        },
    }
}

// A long of the image, stored by its number.
fn stored(fault: Fault, ram: &mut [u8], k: Longs, long: u32) -> Done
    ensures value { result ≡ went true fault }
    ensures ram_after { ram.new ≡ with_long k.0 long ram.old }
{
    ram::store(ram, k.to_bytes(), long);
    Done { good: true, fault }
}

// The last long, and what finishes the load after it.
fn finished(fault: Fault, ram: &mut [u8], k: Longs, long: u32) -> Done
    ensures value { result ≡ went (sums_to_zero ram.new) fault }
    ensures ram_after { ram.new ≡ loaded k.0 long ram.old }
{
    ram::store(ram, k.to_bytes(), long);
    Done {
        good: ram::finish(ram, k.to_end()),
        fault,
    }
}
