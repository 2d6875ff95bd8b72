// Cases as lines of text: a line names what its case changes, each name with its number behind it.
#![tactic(auto)]

ghost use Rattle.std.specs.Prelude.{◌≡◌, ◌≤◌};
ghost use Rattle.cases.specs.Cases.{line_end, next_line, line_start, line_bytes, line_place, behind, starts_with_digit, grown, value_from, number};

// Line n of a text, counted from 0, as a part of it. Past the last line it is empty.
#[tactic(auto, using(crate::proofs::Ends::end_behind, crate::proofs::Ends::end_within, crate::proofs::Ends::start_within))]
pub fn line<'a>(text: &'a [u8], n: u32) -> &'a [u8]
    ensures result_value { result.now ≡ line_bytes text.now n }
    ensures ref_ptr_value { result.ref_ptr ≡ line_place text.entry.ref_ptr text.now n }
{
    let start = line_start(text, n);
    let end = line_end(text, start);
    &text[start..end]
}

// Where line n starts; past the last line with the text's end.
fn line_start(text: &[u8], n: u32) -> usize
    ensures { result ≡ line_start text.now n }
{
    let mut start = 0;
    for _ in 0..n {
        start = next_line(text, start);
    }
    start
}

// Where the line starts that follows the one at a place.
#[tactic(auto, unfolding(crate::specs::Cases::next_line))]
fn next_line(text: &[u8], from: usize) -> usize
    ensures { result ≡ next_line text.now from }
{
    let end = line_end(text, from);
    if text.len() <= end {
        return text.len();
    }
    end + 1
}

// Where the line ends that a place stands in: at the next newline, or with the text. A place past the text's end is its own line's end.
// By places: `iter().skip(from)` would walk what stands before at each line, and a part made for each line costs where lines are short.
fn line_end(text: &[u8], from: usize) -> usize
    ensures { result ≡ line_end text.now from }
{
    for at in from..text.len() {
        if text[at] == b'\n' {
            return at;
        }
    }
    from.max(text.len())
}

// The number right behind the words, where they stand for the first time at a line's start or behind a space with a digit behind them;
// `otherwise` where they do not. One that does not fit 64 bits is the largest that does.
pub fn number(line: &[u8], words: &[u8], otherwise: u64) -> u64
    ensures { result ≡ number line.now words.now otherwise }
{
    let mut fresh = true;
    for (at, byte) in line.iter().enumerate() {
        let behind = behind(&line[at..], words, fresh);
        if starts_with_digit(behind) {
            return value(behind);
        }
        fresh = *byte == b' ';
    }
    otherwise
}

// What stands right behind the words, where a text that stands at a fresh place begins with them; otherwise nothing.
#[tactic(auto, using(crate::proofs::Places::words_are), unfolding(crate::specs::Cases::behind, terms::specs::Choice::when, terms::specs::Choice::both))]
fn behind<'a>(text: &'a [u8], words: &[u8], fresh: bool) -> &'a [u8]
    ensures { result.now ≡ behind fresh text.now words.now }
{
    if !fresh {
        return &[];
    }
    text.strip_prefix(words).unwrap_or(&[])
}

#[tactic(auto, unfolding(crate::specs::Cases::starts_with_digit, crate::specs::Cases::is_digit, terms::specs::Choice::both))]
fn starts_with_digit(text: &[u8]) -> bool
    ensures { result ≡ starts_with_digit text.now }
{
    text.first().is_some_and(|byte| byte.is_ascii_digit())
}

// The value of the digits that a text starts with.
fn value(text: &[u8]) -> u64
    ensures { result ≡ value_from 0 text.now }
{
    let mut value = 0;
    for byte in text {
        if !byte.is_ascii_digit() {
            return value;
        }
        value = with_digit(value, *byte);
    }
    value
}

// A number with one digit more; the largest of 64 bits where that does not fit.
fn with_digit(value: u64, byte: u8) -> u64
    requires { 48 ≤ byte }
    ensures { result ≡ grown value byte }
{
    value
        .saturating_mul(10)
        .saturating_add(u64::from(byte - b'0'))
}
