// Why settings are refused, in the words of ./steeplesilk.
use terms::Refusal;

pub fn words(refusal: Refusal) -> &'static str {
    match refusal {
        Refusal::UnitTime => "t is outside 4,300 to 26,000 ns",
        Refusal::Spacer => "h is outside 4,300 to 90,000,000 ns",
        Refusal::Tick => "p is outside 1,000 to 1,000,000 ps",
        Refusal::Slow => {
            "the figures are too slow: 252 x (2t + h) + 504 x (400 ns + p) is above 150,000,000 ns,"
        }
        _ => "docs/DOCK.md has the numbers",
    }
}

// How they go on in a line of their own.
pub fn more_words(refusal: Refusal) -> Option<&'static str> {
    match refusal {
        Refusal::Slow => Some(
            "and the chip has no longer for calibration and handshake; shorten h",
        ),
        _ => None,
    }
}
