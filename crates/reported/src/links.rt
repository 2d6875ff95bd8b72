// The order that the old bench gave the settings of a group, at the left, and the exact one, at the right.
use crate::layout::{Layout, PlacedRow};
use crate::pairs::{Kind, Pairs};
use std::io;
use std::io::Write;

pub fn draw<W: Write>(out: &mut W, layout: &Layout<'_>, pairs: &Pairs<'_>) -> io::Result<()> {
    for (i, placed) in layout.rows.iter().enumerate() {
        let row = placed.row;
        let setting = &row.setting;
        link(out, placed, Style::of(setting.name, pairs))?;
        let mut before = layout.rows.iter().take(i);
        if !before.any(|other| other.row.setting.is_as_fast_by_old_bench(setting)) {
            writeln!(
                out,
                r#"<text x="704" y="{}" font-size="12" text-anchor="end">{}</text>"#,
                placed.old_y + 24,
                row.old_rank
            )?;
        }
    }
    Ok(())
}

// How a link is drawn, and the dots at its ends.
#[derive(Clone, Copy)]
struct Style {
    stroke: &'static str,
    dot: &'static str,
}

impl Style {
    // Red where a pair of the setting is the wrong way round, dashed where it was not told apart from another, or only by the old bench.
    fn of(name: &str, pairs: &Pairs<'_>) -> Style {
        let mut wrong = pairs.wrong.iter().filter(|pair| pair.names(name));
        let is_crossed = wrong.any(|pair| pair.kind == Kind::Crossed);
        let mut wrong = pairs.wrong.iter().filter(|pair| pair.names(name));
        let is_tied = wrong.any(|pair| pair.kind != Kind::Crossed);
        match (is_crossed, is_tied) {
            (false, false) => Style {
                stroke: r##"stroke="#8896a5" stroke-width="2""##,
                dot: "#8896a5",
            },
            (false, true) => Style {
                stroke: r##"stroke="#333" stroke-width="3" stroke-dasharray="7 4""##,
                dot: "#333",
            },
            (true, false) => Style {
                stroke: r##"stroke="#d1332e" stroke-width="3""##,
                dot: "#d1332e",
            },
            (true, true) => Style {
                stroke: r##"stroke="#d1332e" stroke-width="3" stroke-dasharray="7 4""##,
                dot: "#d1332e",
            },
        }
    }
}

fn link<W: Write>(out: &mut W, placed: &PlacedRow<'_>, style: Style) -> io::Result<()> {
    let Style { stroke, dot } = style;
    let from = placed.old_y + 20;
    let to = placed.y + 20;
    writeln!(out, r#"<path d="M714 {from}L814 {to}" {stroke}/>"#)?;
    writeln!(out, r#"<circle cx="714" cy="{from}" r="4" fill="{dot}"/>"#)?;
    writeln!(out, r#"<circle cx="814" cy="{to}" r="4" fill="{dot}"/>"#)?;
    writeln!(
        out,
        r#"<text x="824" y="{}" font-size="12">{}</text>"#,
        to + 4,
        placed.row.rank
    )
}
