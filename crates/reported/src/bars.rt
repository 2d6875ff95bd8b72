// The rows of the picture: a setting's times as bars by phases, and for which chips it is safe; or why it is refused.
use crate::batch::{Chips, Durations, Group, Row, Timed};
use crate::forms::{Apart, Clock, Delay, GroupedMs, Shortest};
use crate::layout::{Layout, PlacedRefused, PlacedRow, X, Y};
use crate::phases::{IMAGE, Phase};
use crate::picture::{GREEN, RED};
use crate::refusals;
use entries::Bench;
use std::io::Write;
use std::{fmt, io};

// Where the bars start.
const TIMES: X = X(2_200);

const REST: X = X(8_700);

const LOOPS: X = X(11_200);

pub fn draw<W: Write>(out: &mut W, layout: &Layout<'_>) -> io::Result<()> {
    let scales = Scales::of(layout);
    for (i, placed) in layout.rows.iter().enumerate() {
        if placed.row.is_first {
            match placed.row.setting.group {
                Group::Safe => heading(out, placed.y, "Safe for every chip", GREEN)?,
                Group::NotForAll => heading(out, placed.y, "Not for every chip", RED)?,
            }
        }
        row(out, placed, i % 2 == 1, scales)?;
    }
    for (i, placed) in layout.refused.iter().enumerate() {
        if i == 0 {
            heading(out, placed.y, "Refused", RED)?;
        }
        refused(out, placed)?;
    }
    Ok(())
}

// How many ns a tenth of a pixel stands for, in the bars of all phases and in those without the image.
#[derive(Clone, Copy)]
struct Scales {
    times: u64,
    rest: u64,
}

impl Scales {
    // The longest bar is nearly 400 pixels long, or 200.
    fn of(layout: &Layout<'_>) -> Scales {
        let times = |placed: &PlacedRow<'_>| placed.row.setting.times;
        let one = layout.rows.iter().map(|placed| times(placed).one).max();
        let rest = layout.rows.iter().map(|placed| times(placed).rest()).max();
        Scales {
            times: one.unwrap_or(0) / 4_000 + 1,
            rest: rest.unwrap_or(0) / 2_000 + 1,
        }
    }
}

// A group's heading, above its first row.
fn heading<W: Write>(out: &mut W, y: Y, words: &str, fill: &str) -> io::Result<()> {
    let rule = y - 2;
    writeln!(out, r##"<path d="M16 {rule}L1304 {rule}" stroke="#999"/>"##)?;
    writeln!(
        out,
        r#"<text x="16" y="{}" font-weight="bold" fill="{fill}">{words}</text>"#,
        y - 10
    )
}

fn row<W: Write>(
    out: &mut W,
    placed: &PlacedRow<'_>,
    is_odd: bool,
    scales: Scales,
) -> io::Result<()> {
    let y = placed.y;
    let row = placed.row;
    let times = &row.setting.times;
    ground(out, row, y, is_odd)?;
    name(out, row, y)?;
    segments(out, TIMES, y + 10, &times.phases, scales.times)?;
    old(out, times, y, scales.times)?;
    figures(out, row, y + 50)?;
    let mut rest = times.phases;
    rest[IMAGE] = 0;
    segments(out, REST, y + 10, &rest, scales.rest)?;
    writeln!(
        out,
        r##"<text x="870" y="{}" fill="#333">{} of {} ms</text>"##,
        y + 50,
        GroupedMs(times.rest()),
        GroupedMs(times.one)
    )?;
    loops(out, row.setting.chips, y + 10)?;
    chips(out, &row.setting, y + 50)
}

// The one to choose is green, of the others every second one is grey.
fn ground<W: Write>(out: &mut W, row: &Row<'_>, y: Y, is_odd: bool) -> io::Result<()> {
    let fill = if row.setting.group == Group::Safe && row.rank == 1 {
        "#e3f4ea"
    } else if is_odd {
        "#f4f6f9"
    } else {
        return Ok(());
    };
    writeln!(
        out,
        r#"<rect x="8.0" y="{y}" width="1304.0" height="62" fill="{fill}"/>"#
    )
}

fn name<W: Write>(out: &mut W, row: &Row<'_>, y: Y) -> io::Result<()> {
    let name = row.setting.name;
    writeln!(
        out,
        r#"<text x="16" y="{}" font-size="16" font-weight="bold" {MONOSPACE}>{}. {name}</text>"#,
        y + 25,
        row.rank
    )?;
    writeln!(
        out,
        r##"<text x="16" y="{}" fill="#555" font-size="11">{}</text>"##,
        y + 47,
        BenchFigures(row.setting.bench)
    )
}

const MONOSPACE: &str = r#"font-family="DejaVu Sans Mono, Menlo, Consolas, monospace""#;

// The figures of a bench, each as short as it can be.
#[derive(Clone, Copy)]
struct BenchFigures(Bench);

impl fmt::Display for BenchFigures {
    fn fmt<W: fmt::Write>(&self, f: &mut fmt::Formatter<W>) -> fmt::Result {
        let Bench { t, h, p } = self.0;
        let [t, h, p] = [t, h, p].map(|n| Shortest(u64::from(n)));
        write!(f, "{t} / {h} us, {p} ns")
    }
}

// A part of a bar, 20 pixels high.
fn bar<W: Write>(out: &mut W, from: X, y: Y, width: X, fill: &str) -> io::Result<()> {
    writeln!(
        out,
        r#"<rect x="{from}" y="{y}" width="{width}" height="20" fill="{fill}"/>"#
    )
}

// ---- The bars by phases

// The phases of one tracker from a place on.
fn segments<W: Write>(
    out: &mut W,
    x: X,
    y: Y,
    durations: &[u64; 10],
    scale: u64,
) -> io::Result<()> {
    let mut time = 0u64;
    for (phase, ns) in Phase::all().iter().zip(durations) {
        let from = x + scaled(time, scale);
        time = time.saturating_add(*ns);
        let width = (x + scaled(time, scale)) - from;
        if width != X(0) {
            bar(out, from, y, gapped(width), phase.colour)?;
        }
    }
    Ok(())
}

fn scaled(ns: u64, scale: u64) -> u64 {
    ns.checked_div(scale).unwrap_or(0)
}

// With half a pixel of white behind a phase where that leaves most of it.
fn gapped(width: X) -> X {
    if width < X(20) { width } else { width - X(5) }
}

// ---- What the old bench said

// Where the old bench stopped, and hatched what it left out.
fn old<W: Write>(out: &mut W, times: &Durations, y: Y, scale: u64) -> io::Result<()> {
    let from = TIMES + scaled(times.old_one, scale);
    let to = TIMES + scaled(times.one, scale);
    if from < to {
        bar(out, from, y + 10, to - from, "url(#hatch)")?;
    }
    writeln!(
        out,
        r##"<path d="M{from} {}v28" stroke="#000" stroke-width="3"/>"##,
        y + 6
    )
}

// The time of all trackers, and what the old bench said of it.
fn figures<W: Write>(out: &mut W, row: &Row<'_>, y: Y) -> io::Result<()> {
    let times = &row.setting.times;
    writeln!(
        out,
        r#"<text x="220" y="{y}" font-size="16" font-weight="bold">{}</text>"#,
        Clock(times.all)
    )?;
    if row.rank == 1 {
        writeln!(
            out,
            r#"<text x="322" y="{y}" fill="{GREEN}" font-weight="bold">first</text>"#
        )?;
    } else {
        writeln!(
            out,
            r##"<text x="322" y="{y}" fill="#333">+{}</text>"##,
            Delay(row.behind)
        )?;
    }
    let clock = Clock(times.old_all);
    match times.left_out() {
        0 => writeln!(
            out,
            r##"<text x="428" y="{y}" fill="#666" font-size="12">old bench {clock}, left out nothing</text>"##
        ),
        ns => writeln!(
            out,
            r#"<text x="428" y="{y}" fill="{RED}" font-size="12">old bench {clock}, left out {}</text>"#,
            Apart(ns)
        ),
    }
}

// ---- The loops

fn loops<W: Write>(out: &mut W, chips: Chips, y: Y) -> io::Result<()> {
    bar(out, LOOPS, y, X(1_800), "#f3c9c7")?;
    let longest = match chips {
        Chips::All => safe::LONGEST,
        Chips::UpTo(longest) => longest,
        Chips::None => return Ok(()),
    };
    match longest.saturating_sub(safe::SHORTEST) {
        0 => Ok(()),
        ps => bar(out, LOOPS, y, X(u64::from(ps) * 3 / 1_000), "#5bb381"),
    }
}

fn chips<W: Write>(out: &mut W, setting: &Timed<'_>, y: Y) -> io::Result<()> {
    if setting.group == Group::Safe {
        return writeln!(
            out,
            r##"<text x="1120" y="{y}" fill="#333">every chip</text>"##
        );
    }
    writeln!(
        out,
        r#"<text x="1120" y="{y}" fill="{RED}" font-size="12" font-weight="bold">{}</text>"#,
        Warning(setting)
    )
}

// Why a setting is not safe for every chip.
#[derive(Clone, Copy)]
struct Warning<'a>(&'a Timed<'a>);

impl fmt::Display for Warning<'_> {
    fn fmt<W: fmt::Write>(&self, f: &mut fmt::Formatter<W>) -> fmt::Result {
        let setting = self.0;
        match setting.chips {
            Chips::All => return write!(f, "h below t: may lose bits"),
            Chips::UpTo(longest) => write!(f, "up to {} ns", longest / 1_000)?,
            Chips::None => write!(f, "no chip")?,
        }
        if setting.is_short_spaced() {
            write!(f, "; h below t")?;
        }
        Ok(())
    }
}

// ---- The refused

fn refused<W: Write>(out: &mut W, placed: &PlacedRefused<'_>) -> io::Result<()> {
    let setting = placed.setting;
    let refusal = setting.refusal;
    let y = placed.y + 18;
    writeln!(
        out,
        r#"<text x="16" y="{y}" font-weight="bold" {MONOSPACE}>{}</text>"#,
        setting.name
    )?;
    writeln!(
        out,
        r##"<text x="130" y="{y}" fill="#555" font-size="12">{}</text>"##,
        BenchFigures(setting.bench)
    )?;
    writeln!(
        out,
        r#"<text x="440" y="{y}">{refusal}: {}</text>"#,
        refusals::words(refusal)
    )?;
    if let Some(words) = refusals::more_words(refusal) {
        writeln!(out, r#"<text x="440" y="{}">{words}</text>"#, placed.y + 36)?;
    }
    Ok(())
}
