// A view of either memory, page by page.
#![tactic(auto)]

ghost use Rattle.std.specs.Prelude.{◌≡◌};
ghost use Rattle.pages.specs.Page.{chosen, page_bytes, page_start};

use eeprom::PAGES;
use units::Bytes;

const PAGE: usize = Bytes::PAGE.0;

// One of the two memories.
#[derive(Clone, Copy, PartialEq, Eq, Debug)]
pub enum Memory {
    Ram,
    Eeprom,
}

// Page k of the chosen memory, 64 bytes of that memory itself. It is empty where k is above 511, or the chosen memory is not of its
// size; the other memory is not looked at.
pub fn page<'a>(ram: &'a [u8], eeprom: &'a [u8], memory: Memory, k: u32) -> &'a [u8]
    ensures result_value { result.now ≡ page_bytes k (chosen memory ram.entry eeprom.entry).now }
    ensures ref_ptr_value { result.ref_ptr ≡ page_start k (chosen memory ram.entry eeprom.entry).ref_ptr (chosen memory ram.entry eeprom.entry).now }
{
    match memory {
        Memory::Ram => part(ram, k),
        Memory::Eeprom => part(eeprom, k),
    }
}

#[tactic(auto, unfolding(crate::specs::Page::has_page, crate::specs::Page::page_bytes, crate::specs::Page::page_start, terms::specs::Choice::when, terms::specs::Choice::both))]
fn part<'a>(memory: &'a [u8], k: u32) -> &'a [u8]
    ensures result_value { result.now ≡ page_bytes k memory.now }
    ensures ref_ptr_value { result.ref_ptr ≡ page_start k memory.entry.ref_ptr memory.now }
{
    if memory.len() != Bytes::MEMORY.0 || PAGES <= k {
        return &memory[..0];
    }
    let start = k as usize * PAGE;
    &memory[start..start + PAGE]
}
