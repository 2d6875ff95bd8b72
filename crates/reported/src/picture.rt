// The report as an SVG picture.
use crate::batch::{Batch, Chips, Group, Row, Timed};
use crate::forms::{Clock, Grouped, plural};
use crate::job::Job;
use crate::layout::{Layout, Y};
use crate::pairs::Pairs;
use crate::phases::Phase;
use crate::{bars, links};
use std::io::Write;
use std::{fmt, io};

// What is good, and what is not.
pub const GREEN: &str = "#11744a";

pub const RED: &str = "#b02a26";

pub fn report<W: Write>(out: &mut W, batch: &Batch<'_>, layout: &Layout<'_>) -> io::Result<()> {
    head(out, batch, layout.end + foot(batch))?;
    if let Some(first) = batch.rows.first() {
        legend(out, first)?;
        heads(out, &batch.job)?;
    }
    bars::draw(out, layout)?;
    links::draw(out, layout, &batch.pairs)?;
    if !batch.rows.is_empty() {
        close(out, &batch.pairs, layout.end)?;
    }
    writeln!(out, "</svg>")
}

// The room for the closing lines: none, one or two.
fn foot(batch: &Batch<'_>) -> u64 {
    if batch.rows.is_empty() {
        10
    } else if batch.pairs.wrong.is_empty() {
        54
    } else {
        78
    }
}

// The picture's size and what it is, the headline, and what was loaded.
fn head<W: Write>(out: &mut W, batch: &Batch<'_>, height: Y) -> io::Result<()> {
    let job = &batch.job;
    let title = Escaped(job.title.as_str());
    let headline = Headline(&*batch);
    writeln!(
        out,
        r#"<svg xmlns="http://www.w3.org/2000/svg" role="img" viewBox="0 0 1320 {height}" width="1320" height="{height}" font-family="DejaVu Sans, Verdana, Arial, sans-serif" font-size="13">"#
    )?;
    writeln!(
        out,
        "<title>Batch report: {title}, {} tracker{}</title>",
        Grouped(u64::from(job.trackers)),
        plural(usize::from(job.trackers))
    )?;
    writeln!(out, "<desc>{headline}. {}.</desc>", batch.pairs)?;
    writeln!(
        out,
        r##"<defs><pattern id="hatch" width="6" height="6" patternUnits="userSpaceOnUse" patternTransform="rotate(45)"><rect width="6" height="6" fill="#fff"/><rect width="3" height="6" fill="#d1332e"/></pattern></defs>"##
    )?;
    writeln!(
        out,
        r##"<rect x="0.0" y="0" width="1320.0" height="{height}" fill="#fff"/>"##
    )?;
    writeln!(
        out,
        r#"<text x="16" y="32" font-size="{}" font-weight="bold">{headline}</text>"#,
        letters(batch)
    )?;
    writeln!(
        out,
        r##"<text x="16" y="54" fill="#555">{title}, {} bytes, command {} ({}), {} pulses a tracker</text>"##,
        Grouped(job.image.len() as u64),
        job.command.number(),
        job.command,
        Grouped(batch.pulses())
    )?;
    writeln!(
        out,
        r##"<text x="16" y="72" fill="#555">Line time of a chip that is never busy; reset and handling are not counted. Sums are exact; what is shown of them is cut, not rounded.</text>"##
    )
}

// A text with what XML needs.
#[derive(Clone, Copy)]
struct Escaped<'a>(&'a str);

impl fmt::Display for Escaped<'_> {
    fn fmt<W: fmt::Write>(&self, f: &mut fmt::Formatter<W>) -> fmt::Result {
        for c in self.0.chars() {
            match c {
                '&' => f.write_str("&amp;")?,
                '<' => f.write_str("&lt;")?,
                '>' => f.write_str("&gt;")?,
                '"' => f.write_str("&quot;")?,
                _ => f.write_char(c)?,
            }
        }
        Ok(())
    }
}

// ---- The headline

// The size of its letters: longer ones have smaller letters.
fn letters(batch: &Batch<'_>) -> u32 {
    match batch.fastest() {
        [] => 21,
        [one] if one.setting.group == Group::Safe => 21,
        _ => 16,
    }
}

// Which setting to choose, a sentence without its stop.
#[derive(Clone, Copy)]
struct Headline<'a>(&'a Batch<'a>);

impl fmt::Display for Headline<'_> {
    fn fmt<W: fmt::Write>(&self, f: &mut fmt::Formatter<W>) -> fmt::Result {
        let batch = self.0;
        match batch.fastest() {
            [] => write_refused(f, batch.refused.len()),
            [only] => {
                write_choice(f, batch, only, "is")?;
                write_caveat(f, &only.setting)
            }
            [first, ..] => write_choice(f, batch, first, "are"),
        }
    }
}

fn write_refused<W: fmt::Write>(f: &mut fmt::Formatter<W>, n: usize) -> fmt::Result {
    if n == 1 {
        write!(f, "No setting can be used: the only one is refused")
    } else {
        write!(f, "No setting can be used: all {n} are refused")
    }
}

fn write_choice<W: fmt::Write>(
    f: &mut fmt::Formatter<W>,
    batch: &Batch<'_>,
    first: &Row<'_>,
    verb: &str,
) -> fmt::Result {
    let fastest = batch.fastest();
    let clock = Clock(first.setting.times.all);
    match first.setting.group {
        Group::Safe => write!(
            f,
            "Choose {}: {clock} for {} tracker{}, the fastest that {verb} safe for every chip",
            Names {
                rows: fastest,
                word: "or"
            },
            Grouped(u64::from(batch.job.trackers)),
            plural(usize::from(batch.job.trackers))
        ),
        Group::NotForAll => write!(
            f,
            "No setting is safe for every chip: {} {verb} the fastest, {clock}",
            Names {
                rows: fastest,
                word: "and"
            }
        ),
    }
}

// Names with a word between them, of which two are written out.
#[derive(Clone, Copy)]
struct Names<'a> {
    rows: &'a [Row<'a>],
    word: &'static str,
}

impl fmt::Display for Names<'_> {
    fn fmt<W: fmt::Write>(&self, f: &mut fmt::Formatter<W>) -> fmt::Result {
        let Names { rows, word } = *self;
        match rows {
            [] => Ok(()),
            [a] => write!(f, "{}", a.setting.name),
            [a, b] => write!(f, "{} {word} {}", a.setting.name, b.setting.name),
            [a, b, more @ ..] => {
                let more = more.len();
                write!(
                    f,
                    "{}, {} {word} {more} more",
                    a.setting.name, b.setting.name
                )
            }
        }
    }
}

// For which chips the only setting is not safe.
fn write_caveat<W: fmt::Write>(f: &mut fmt::Formatter<W>, setting: &Timed<'_>) -> fmt::Result {
    match setting.chips {
        Chips::All if setting.group == Group::Safe => Ok(()),
        Chips::All => write!(f, ", but its h is below t"),
        Chips::None => write!(f, ", but its margin is enough for no chip"),
        Chips::UpTo(longest) => {
            write!(f, ", for chips up to {} ns", longest / 1_000)?;
            if setting.is_short_spaced() {
                write!(f, ", but its h is below t")?;
            }
            Ok(())
        }
    }
}

// ---- The legend and the heads of the columns

fn legend<W: Write>(out: &mut W, first: &Row<'_>) -> io::Result<()> {
    let mut x = 16u64;
    for (phase, ns) in Phase::all().iter().zip(&first.setting.times.phases) {
        if *ns != 0 {
            let Phase {
                name,
                colour,
                legend,
                ..
            } = *phase;
            writeln!(
                out,
                r#"<rect x="{x}.0" y="85" width="13.0" height="13" fill="{colour}"/>"#
            )?;
            writeln!(
                out,
                r#"<text x="{}" y="96">{name}</text>"#,
                x.saturating_add(18)
            )?;
            x = x.saturating_add(legend);
        }
    }
    writeln!(out, "{LEGEND}")
}

const LEGEND: &str = r##"<rect x="16.0" y="107" width="26.0" height="13" fill="url(#hatch)"/>
<text x="48" y="118">left out by the old bench</text>
<path d="M244.0 105v17" stroke="#000" stroke-width="3"/>
<text x="252" y="118">where the old bench stopped</text>
<text x="470" y="118" fill="#555">order:</text>
<path d="M516 114L542 114" stroke="#d1332e" stroke-width="3"/>
<text x="548" y="118">in a pair the wrong way round</text>
<path d="M760 114L786 114" stroke="#333" stroke-width="3" stroke-dasharray="7 4"/>
<text x="792" y="118">in a tie that it missed or made up</text>
<path d="M1040 114L1066 114" stroke="#8896a5" stroke-width="2"/>
<text x="1072" y="118">right</text>
<rect x="1120.0" y="107" width="26.0" height="13" fill="#5bb381"/>
<text x="1152" y="118">loops it is safe for</text>"##;

fn heads<W: Write>(out: &mut W, job: &Job) -> io::Result<()> {
    writeln!(out, "{SETTING_HEAD}")?;
    writeln!(
        out,
        r#"<text x="220" y="150" font-weight="bold">exact time for {} tracker{}</text>"#,
        Grouped(u64::from(job.trackers)),
        plural(usize::from(job.trackers))
    )?;
    writeln!(out, "{OTHER_HEADS}")
}

const SETTING_HEAD: &str = r##"<text x="16" y="150" font-weight="bold">setting</text>
<text x="16" y="166" fill="#555" font-size="11">t / h us, p ns</text>"##;

const OTHER_HEADS: &str =
    r##"<text x="220" y="166" fill="#555" font-size="11">h:mm:ss, behind the first; the old bench, what it left out</text>
<text x="690" y="150" font-weight="bold">order: old, exact</text>
<text x="690" y="166" fill="#555" font-size="11">ranks in the group</text>
<text x="870" y="150" font-weight="bold">all but the image</text>
<text x="870" y="166" fill="#555" font-size="11">one tracker, on a scale of its own</text>
<text x="1120" y="150" font-weight="bold">safe for chip loops</text>
<text x="1120" y="166" fill="#555" font-size="11">from 400 to 1,000 ns</text>"##;

// ---- The end

fn close<W: Write>(out: &mut W, pairs: &Pairs<'_>, end: Y) -> io::Result<()> {
    let fill = if pairs.wrong.is_empty() { GREEN } else { RED };
    let rule = end + 8;
    writeln!(out, r##"<path d="M16 {rule}L1304 {rule}" stroke="#999"/>"##)?;
    writeln!(
        out,
        r#"<text x="16" y="{}" font-size="15" font-weight="bold" fill="{fill}">{pairs}.</text>"#,
        end + 36
    )?;
    if let Some(worst) = pairs.worst() {
        writeln!(
            out,
            r#"<text x="16" y="{}" font-size="14" fill="{RED}">The worst: {worst}.</text>"#,
            end + 60
        )?;
    }
    Ok(())
}
