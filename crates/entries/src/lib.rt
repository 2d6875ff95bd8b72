// A line of a settings file: NAME T H P, apart by spaces or tabs; what follows a # is a comment, and a carriage return at the line's end
// does not count.
#![tactic(auto)]

ghost use Rattle.std.specs.Prelude.{◌≡◌, ◌≤◌, length};
ghost use Rattle.figures.specs.Figures.{figure_of};
ghost use Rattle.entries.specs.Entries.{ends_content, content_length, content_of, is_blank, blanks, until_blank, skipped, word_end, word_start, word_bytes, word_place, no_word, may_be_named, is_name, setting_of, entry_of};

// What is wrong with a line.
#[derive(Clone, Copy)]
pub enum Cause {
    // It has fewer than four words, or more.
    Fewer,
    More,
    // The name is longer than 12 characters, or has another than A to Z, a to z, 0 to 9, dot, underscore and hyphen.
    LongName,
    OtherName,
    // T, H or P is no number of 32 bits.
    T,
    H,
    P,
}

// The figures of a line, which Settings::new may still refuse.
#[derive(Clone, Copy)]
pub struct Bench {
    pub t: u32,
    pub h: u32,
    pub p: u32,
}

pub const LONGEST_NAME: usize = 12;

// The figures of a line, none of a blank one, or what is wrong with it: the first that applies, in the order of `Cause`.
#[tactic(auto, unfolding(crate::specs::Entries::entry_of, terms::specs::Choice::when))]
pub fn read(line: &[u8]) -> Result<Option<Bench>, Cause>
    ensures { result ≡ entry_of line.now }
{
    if is_empty(line, 0) {
        return Ok(None);
    }
    if is_empty(line, 3) {
        return Err(Cause::Fewer);
    }
    if !is_empty(line, 4) {
        return Err(Cause::More);
    }
    let name = word(line, 0);
    if LONGEST_NAME < name.len() {
        return Err(Cause::LongName);
    }
    if !is_name(name) {
        return Err(Cause::OtherName);
    }
    setting(line)
}

// Word n of a line, counted from 0, as a part of it; empty where it has no such word.
#[tactic(auto, using(crate::proofs::Texts::end_behind, crate::proofs::Texts::end_within, crate::proofs::Texts::start_within))]
pub fn word<'a>(line: &'a [u8], n: u32) -> &'a [u8]
    ensures result_value { result.now ≡ word_bytes line.now n }
    ensures ref_ptr_value { result.ref_ptr ≡ word_place line.entry.ref_ptr line.now n }
{
    let text = content(line);
    let start = word_start(text, n);
    let end = word_end(text, start);
    &text[start..end]
}

// The part of a line that has its words.
fn content<'a>(line: &'a [u8]) -> &'a [u8]
    ensures result_value { result.now ≡ content_of line.now }
    ensures ref_ptr_value { result.ref_ptr ≡ line.entry.ref_ptr }
{
    let end = content_end(line);
    &line[..end]
}

// Where that ends.
fn content_end(line: &[u8]) -> usize
    ensures { result ≡ content_length line.now }
{
    for (at, byte) in line.iter().enumerate() {
        if is_end(*byte, line.len() - (at + 1)) {
            return at;
        }
    }
    line.len()
}

// Whether a byte ends it, by how many bytes of the line follow.
#[tactic(auto, unfolding(crate::specs::Entries::ends_content, terms::specs::Choice::either, terms::specs::Choice::both))]
fn is_end(byte: u8, following: usize) -> bool
    ensures { result ≡ ends_content byte following }
{
    match byte {
        b'#' => true,
        b'\r' => following == 0,
        _ => false,
    }
}

// Where word n starts; the end where there is none.
fn word_start(text: &[u8], n: u32) -> usize
    ensures { result ≡ word_start text.now n }
{
    let mut start = skip(text, 0);
    for _ in 0..n {
        start = skip(text, word_end(text, start));
    }
    start
}

// The first place from one on that is no blank, or the end.
#[tactic(auto, using(crate::proofs::Texts::skipped_past), unfolding(crate::specs::Entries::skipped))]
fn skip(text: &[u8], from: usize) -> usize
    ensures { result ≡ skipped text.now from }
{
    if text.len() <= from {
        return from;
    }
    from + blanks(&text[from..])
}

// The first place from one on that is a blank, or the end.
#[tactic(auto, using(crate::proofs::Texts::end_past), unfolding(crate::specs::Entries::word_end))]
fn word_end(text: &[u8], from: usize) -> usize
    ensures { result ≡ word_end text.now from }
{
    if text.len() <= from {
        return from;
    }
    from + until_blank(&text[from..])
}

// How many blanks a text starts with. Counted on the part of a line that follows a place: the library's `skip` would walk the bytes before it
// at each word.
fn blanks(text: &[u8]) -> usize
    ensures value { result ≡ blanks text.now }
    ensures within { result ≤ length text.now }
{
    text.iter().take_while(|byte| is_blank(**byte)).count()
}

// How many bytes a text starts with that are none.
fn until_blank(text: &[u8]) -> usize
    ensures value { result ≡ until_blank text.now }
    ensures within { result ≤ length text.now }
{
    text.iter().take_while(|byte| !is_blank(**byte)).count()
}

#[tactic(auto, unfolding(crate::specs::Entries::is_blank, terms::specs::Choice::either))]
fn is_blank(byte: u8) -> bool
    ensures { result ≡ is_blank byte }
{
    byte == b' ' || byte == b'\t'
}

// Whether a line has no word n.
#[tactic(auto, unfolding(crate::specs::Entries::no_word))]
fn is_empty(line: &[u8], n: u32) -> bool
    ensures { result ≡ no_word line.now n }
{
    word(line, n).is_empty()
}

// Whether a name has only the characters that it may have.
fn is_name(name: &[u8]) -> bool
    ensures { result ≡ is_name name.now }
{
    name.iter().all(|byte| may_be_named(*byte))
}

#[tactic(auto, unfolding(crate::specs::Entries::may_be_named, crate::specs::Entries::is_between, terms::specs::Choice::either, terms::specs::Choice::both))]
fn may_be_named(byte: u8) -> bool
    ensures { result ≡ may_be_named byte }
{
    matches!(byte, b'A'..=b'Z' | b'a'..=b'z' | b'0'..=b'9' | b'.' | b'_' | b'-')
}

// The setting of a line that has its words, or the first of them that is no number.
#[tactic(auto, unfolding(crate::specs::Entries::setting_of))]
fn setting(line: &[u8]) -> Result<Option<Bench>, Cause>
    ensures { result ≡ setting_of (figure_of (word_bytes line.now 1)) (figure_of (word_bytes line.now 2)) (figure_of (word_bytes line.now 3)) }
{
    let t = figure(line, 1).ok_or(Cause::T)?;
    let h = figure(line, 2).ok_or(Cause::H)?;
    let p = figure(line, 3).ok_or(Cause::P)?;
    Ok(Some(Bench { t, h, p }))
}

fn figure(line: &[u8], n: u32) -> Option<u32>
    ensures { result ≡ figure_of (word_bytes line.now n) }
{
    figures::read(word(line, n))
}
