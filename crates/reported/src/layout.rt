// Where things stand in the picture.
use crate::batch::{Batch, Refused, Row};
use crate::forms::Decimal;
use crate::refusals;
use std::alloc::{AllocError, Global};
use std::fmt;
use std::ops::{Add, Sub};

// Pixels from the top.
#[derive(Clone, Copy)]
pub struct Y(u64);

// Tenths of a pixel, from the left.
#[derive(Clone, Copy, PartialEq, Eq, PartialOrd, Ord)]
pub struct X(pub u64);

impl Add<u64> for Y {
    type Output = Y;

    fn add(self, pixels: u64) -> Y {
        Y(self.0.saturating_add(pixels))
    }
}

impl Sub<u64> for Y {
    type Output = Y;

    fn sub(self, pixels: u64) -> Y {
        Y(self.0.saturating_sub(pixels))
    }
}

impl Add<u64> for X {
    type Output = X;

    fn add(self, tenths: u64) -> X {
        X(self.0.saturating_add(tenths))
    }
}

impl Sub for X {
    type Output = X;

    fn sub(self, other: X) -> X {
        X(self.0.saturating_sub(other.0))
    }
}

impl fmt::Display for Y {
    fn fmt<W: fmt::Write>(&self, f: &mut fmt::Formatter<W>) -> fmt::Result {
        write!(f, "{}", self.0)
    }
}

impl fmt::Display for X {
    fn fmt<W: fmt::Write>(&self, f: &mut fmt::Formatter<W>) -> fmt::Result {
        write!(f, "{}", Decimal::tenths(self.0))
    }
}

// A group's heading, a setting's row, and what is below a group.
const HEADING: u64 = 30;

const ROW: u64 = 62;

const GAP: u64 = 10;

// Where the first group begins: below the heads of the columns, or without these.
const TOP: u64 = 184;

const BARE_TOP: u64 = 90;

#[derive(Drop)]
pub struct Layout<'a> {
    pub rows: Vec<PlacedRow<'a>>,
    pub refused: Vec<PlacedRefused<'a>>,
    // What is below all.
    pub end: Y,
}

#[derive(Clone, Copy)]
pub struct PlacedRow<'a> {
    pub row: &'a Row<'a>,
    pub y: Y,
    // Where its place in the old bench's order is.
    pub old_y: Y,
}

#[derive(Clone, Copy)]
pub struct PlacedRefused<'a> {
    pub setting: &'a Refused<'a>,
    pub y: Y,
}

impl<'a> Layout<'a> {
    pub fn of(alloc: Global, batch: &'a Batch<'a>) -> Result<Layout<'a>, AllocError> {
        let mut rows = Vec::new(alloc);
        let mut y = Y(if batch.rows.is_empty() { BARE_TOP } else { TOP });
        let mut top = y;
        for row in batch.rows.iter() {
            if row.is_first {
                y = y + heading(rows.is_empty());
                top = y;
            }
            rows.push(PlacedRow {
                row,
                y,
                old_y: old_y(top, row, &batch.rows),
            })?;
            y = y + ROW;
        }
        let mut refused = Vec::new(alloc);
        for setting in batch.refused.iter() {
            if refused.is_empty() {
                y = y + heading(rows.is_empty());
            }
            refused.push(PlacedRefused { setting, y })?;
            y = y + height(setting);
        }
        Ok(Layout {
            rows,
            refused,
            end: y + GAP,
        })
    }
}

// What stands above the first row of a group, which may be the first of all.
fn heading(is_first_group: bool) -> u64 {
    if is_first_group {
        HEADING
    } else {
        GAP + HEADING
    }
}

fn height(setting: &Refused<'_>) -> u64 {
    match refusals::more_words(setting.refusal) {
        Some(_) => 42,
        None => 24,
    }
}

// Where the old bench's place of a setting is, which those with the same time by it share: the middle of their rows.
fn old_y(top: Y, row: &Row<'_>, rows: &[Row<'_>]) -> Y {
    let sharing = rows
        .iter()
        .filter(|other| other.setting.is_as_fast_by_old_bench(&row.setting))
        .count();
    let before = row.old_rank.saturating_sub(1) as u64;
    let others = sharing.saturating_sub(1) as u64;
    top + before.saturating_mul(ROW) + others.saturating_mul(ROW / 2)
}
