// The report as text.
use crate::batch::{Batch, Chips, Group, Refused, Row, Timed};
use crate::forms::{Decimal, Delay, Grouped, LongClock, plural};
use crate::pairs::Pairs;
use crate::phases::Phase;
use crate::refusals;
use std::io;
use std::io::Write;

// The most wrong pairs that are listed.
const LISTED: usize = 40;

pub fn report<W: Write>(out: &mut W, batch: &Batch<'_>) -> io::Result<()> {
    head(out, batch)?;
    settings(out, batch)?;
    if batch.rows.is_empty() {
        return Ok(());
    }
    pairs(out, &batch.pairs)?;
    phases(out, &batch.rows)?;
    writeln!(out, "{NOTES}")
}

fn head<W: Write>(out: &mut W, batch: &Batch<'_>) -> io::Result<()> {
    let job = &batch.job;
    writeln!(
        out,
        "BATCH REPORT  {}: {} bytes, command {} ({}), {} tracker{}",
        job.title,
        Grouped(job.image.len() as u64),
        job.command.number(),
        job.command,
        Grouped(u64::from(job.trackers)),
        plural(usize::from(job.trackers))
    )?;
    writeln!(
        out,
        "A session has {} pulses, {} ones and {} zeros.",
        Grouped(batch.pulses()),
        Grouped(batch.ones),
        Grouped(batch.zeros)
    )?;
    writeln!(out, "{LINE_TIME}")
}

const LINE_TIME: &str =
    "Line time only: no reset, no handling, and a chip that is never busy. Sums are exact; a clock time is cut, not rounded, once, to 1 ms,
after the last sum, and a difference to 0.1 s.
";

// ---- The settings

fn settings<W: Write>(out: &mut W, batch: &Batch<'_>) -> io::Result<()> {
    if !batch.rows.is_empty() {
        writeln!(out, "{COLUMNS}")?;
    }
    if !batch.has(Group::Safe) {
        writeln!(out, "     no setting is safe for every chip")?;
    }
    for row in batch.rows.iter() {
        if row.is_first {
            writeln!(out, "{}", heading(row.setting.group))?;
        }
        setting(out, row)?;
    }
    if !batch.refused.is_empty() {
        writeln!(
            out,
            "     refused:            t us         h us         p ns"
        )?;
    }
    for setting in batch.refused.iter() {
        refused(out, setting)?;
    }
    writeln!(out)
}

const COLUMNS: &str =
    "rank setting         t us     h us      p ns  one tracker s   all trackers    behind 1st |  old bench said  rank   left out | chip loops ns";

fn heading(group: Group) -> &'static str {
    match group {
        Group::Safe => "     safe for every chip:",
        Group::NotForAll => "     not for every chip:",
    }
}

fn setting<W: Write>(out: &mut W, row: &Row<'_>) -> io::Result<()> {
    let Timed {
        name,
        bench,
        times,
        ..
    } = &row.setting;
    write!(
        out,
        "{:3}  {name:<13}{:7}{:9}{:10}{:15}{:15}",
        row.rank,
        Decimal::thousandths(u64::from(bench.t)),
        Decimal::thousandths(u64::from(bench.h)),
        Decimal::thousandths(u64::from(bench.p)),
        Decimal::seconds(times.one),
        LongClock(times.all)
    )?;
    if row.rank == 1 {
        write!(out, "         first")?;
    } else {
        write!(out, "{:+14}", Delay(row.behind))?;
    }
    write!(
        out,
        " |{:16}{:6}{:11} | ",
        LongClock(times.old_all),
        row.old_rank,
        Delay(times.left_out())
    )?;
    chips(out, &row.setting)
}

fn chips<W: Write>(out: &mut W, setting: &Timed<'_>) -> io::Result<()> {
    let is_short_spaced = setting.is_short_spaced();
    match setting.chips {
        Chips::All => write!(out, "all")?,
        Chips::UpTo(longest) => write!(out, "to {}  margin", longest / 1_000)?,
        Chips::None => write!(out, "none    margin")?,
    }
    match (setting.chips, is_short_spaced) {
        (_, false) => writeln!(out),
        (Chips::All, true) => writeln!(out, "     h < t"),
        (_, true) => writeln!(out, ", h < t"),
    }
}

fn refused<W: Write>(out: &mut W, setting: &Refused<'_>) -> io::Result<()> {
    let Refused {
        name,
        bench,
        refusal,
    } = *setting;
    writeln!(
        out,
        " --  {name:<13}{:11}{:13}{:13}  {refusal}: {}",
        Decimal::thousandths(u64::from(bench.t)),
        Decimal::thousandths(u64::from(bench.h)),
        Decimal::thousandths(u64::from(bench.p)),
        refusals::words(refusal)
    )?;
    if let Some(words) = refusals::more_words(refusal) {
        writeln!(out, "{:69}{words}", "")?;
    }
    Ok(())
}

// ---- The pairs that the old bench had wrong

fn pairs<W: Write>(out: &mut W, pairs: &Pairs<'_>) -> io::Result<()> {
    if pairs.wrong.is_empty() {
        writeln!(out, "{pairs}.")?;
        return writeln!(out);
    }
    writeln!(out, "{pairs}:")?;
    for pair in pairs.wrong.iter().take(LISTED) {
        writeln!(out, "  {pair}")?;
    }
    if let Some(more @ 1..) = pairs.wrong.len().checked_sub(LISTED) {
        writeln!(out, "  and {more} more")?;
    }
    writeln!(out)
}

// ---- The phases

fn phases<W: Write>(out: &mut W, rows: &[Row<'_>]) -> io::Result<()> {
    writeln!(out, "{PHASE_COLUMNS}")?;
    for row in rows {
        let setting = &row.setting;
        write!(out, "{:3}  {:<13}", row.rank, setting.name)?;
        for (phase, ns) in Phase::all().iter().zip(&setting.times.phases) {
            let width = phase.width;
            write!(out, "{:width$}", Decimal::ms(*ns))?;
        }
        writeln!(out, "{:15}", Decimal::ms(setting.times.one))?;
    }
    writeln!(out)
}

const PHASE_COLUMNS: &str =
    "Milliseconds of each phase, one tracker. These are exact times; `plan --phases` has differences of ticks.
rank setting      calibration   handshake  connection    version    command       size          image        ram  programming  verification         in all";

const NOTES: &str =
    "old bench: it cut each low and each spacer to whole us before it added; `left out` is what that lost, over all trackers
chip loops: the load is proved to succeed for every chip whose loop is 400 ns to this (cut to whole ns), since t is at least 5 loops and
  4 ticks; real chips have loops of 400 to 1,000 ns; margin: t is shorter than that asks for with the longest of them (docs/LIMITS.md)
h < t: planned, but a real chip can lose bits where the spacer is shorter than t (docs/LIMITS.md)
phases: the spacer after a phase's last pulse is its own; after the session's last pulse there is none";
