// A bench figure as a caller writes it.
#![tactic(auto)]

ghost use Rattle.std.specs.Prelude.{◌≡◌};
ghost use Rattle.figures.specs.Figures.{figure_of, with_digit};

// The number that a text spells: digits alone, at least one, with any zeros before it. One that does not fit 32 bits is none.
pub fn read(text: &[u8]) -> Option<u32>
    ensures { result ≡ figure_of text.now }
{
    if text.is_empty() {
        return None;
    }
    let mut value = 0;
    for byte in text {
        value = with_digit(value, *byte)?;
    }
    Some(value)
}

// A number with one digit more.
fn with_digit(value: u32, byte: u8) -> Option<u32>
    ensures { result ≡ with_digit value byte }
{
    if !byte.is_ascii_digit() {
        return None;
    }
    let next = u64::from(value) * 10 + u64::from(byte - b'0');
    u32::try_from(next).ok()
}
