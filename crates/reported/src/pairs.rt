// What the old bench made of two settings of a group.
use crate::batch::Row;
use crate::forms::{Apart, plural};
use order::Compared;
use std::alloc::{AllocError, Global};
use std::fmt;

// How many pairs it had right, and those that it had wrong, the worst kind first.
#[derive(Drop)]
pub struct Pairs<'a> {
    pub right: usize,
    pub wrong: Vec<Pair<'a>>,
}

// A pair that it had wrong: the one that stands first in the exact order, the other, by how much that is later in ns, and how far apart the
// old bench had them.
#[derive(Clone, Copy)]
pub struct Pair<'a> {
    pub kind: Kind,
    first: &'a str,
    second: &'a str,
    exact: u64,
    old: u64,
    // Whether the first is the faster one for the old bench.
    is_kept: bool,
}

// It put them the wrong way round, could not tell them apart, or made a difference where there is none.
#[derive(Clone, Copy, PartialEq, Eq, PartialOrd, Ord)]
pub enum Kind {
    Crossed,
    Missed,
    Invented,
}

impl<'a> Pairs<'a> {
    // Of rows in the report's order.
    pub fn of(alloc: Global, rows: &[Row<'a>]) -> Result<Pairs<'a>, AllocError> {
        let mut pairs = Pairs {
            right: 0,
            wrong: Vec::new(alloc),
        };
        for (i, second) in rows.iter().enumerate() {
            for first in rows.iter().take(i) {
                if first.setting.group == second.setting.group {
                    pairs.add(first, second)?;
                }
            }
        }
        pairs.wrong.sort_by_key(|pair| pair.kind)?;
        Ok(pairs)
    }

    fn add(&mut self, first: &Row<'a>, second: &Row<'a>) -> Result<(), AllocError> {
        match Kind::of(first, second) {
            Some(kind) => self.wrong.push(Pair::new(kind, first, second))?,
            None => self.right = self.right.saturating_add(1),
        }
        Ok(())
    }

    pub fn count(&self, kind: Kind) -> usize {
        self.wrong.iter().filter(|pair| pair.kind == kind).count()
    }

    // Of the worst kind that there is the first one that is furthest wrong.
    pub fn worst(&self) -> Option<&Pair<'a>> {
        let kind = self.wrong.first()?.kind;
        let such = self.wrong.iter().rev().filter(|pair| pair.kind == kind);
        such.max_by_key(|pair| pair.error())
    }
}

impl Kind {
    // None where the old bench had the two right.
    fn of(a: &Row<'_>, b: &Row<'_>) -> Option<Kind> {
        let a = &a.setting.times;
        let b = &b.setting.times;
        match order::compare(a.all, b.all, a.old_all, b.old_all) {
            Compared::Right => None,
            Compared::Crossed => Some(Kind::Crossed),
            Compared::Missed => Some(Kind::Missed),
            Compared::Invented => Some(Kind::Invented),
        }
    }
}

impl<'a> Pair<'a> {
    fn new(kind: Kind, first: &Row<'a>, second: &Row<'a>) -> Pair<'a> {
        let a = &first.setting.times;
        let b = &second.setting.times;
        Pair {
            kind,
            first: first.setting.name,
            second: second.setting.name,
            exact: b.all.saturating_sub(a.all),
            old: a.old_all.abs_diff(b.old_all),
            is_kept: a.old_all < b.old_all,
        }
    }

    pub fn names(&self, name: &str) -> bool {
        self.first == name || self.second == name
    }

    // By how much it is wrong: the difference that there is, or the one that was made.
    fn error(&self) -> u64 {
        match self.kind {
            Kind::Crossed | Kind::Missed => self.exact,
            Kind::Invented => self.old,
        }
    }
}

impl fmt::Display for Pair<'_> {
    fn fmt<W: fmt::Write>(&self, f: &mut fmt::Formatter<W>) -> fmt::Result {
        let Pair { first, second, .. } = *self;
        let exact = Apart(self.exact);
        let old = Apart(self.old);
        match self.kind {
            Kind::Crossed => write!(
                f,
                "{first} is {exact} faster than {second}; the old bench made it {old} slower"
            ),
            Kind::Missed => write!(
                f,
                "{first} is {exact} faster than {second}; the old bench could not tell them apart"
            ),
            Kind::Invented => {
                let faster = if self.is_kept { first } else { second };
                write!(
                    f,
                    "{first} and {second} take the same time; the old bench made {faster} {old} faster"
                )
            }
        }
    }
}

// The verdict on the old bench, a sentence without its stop.
impl fmt::Display for Pairs<'_> {
    fn fmt<W: fmt::Write>(&self, f: &mut fmt::Formatter<W>) -> fmt::Result {
        let crossed = self.count(Kind::Crossed);
        let missed = self.count(Kind::Missed);
        let invented = self.count(Kind::Invented);
        match (crossed, missed, invented) {
            (0, 0, 0) => write_right(f, self.right),
            (0, 0, n) => write!(
                f,
                "The old bench made a difference in {n} pair{} where there is none",
                plural(n)
            ),
            (0, n, _) => {
                write!(
                    f,
                    "The old bench could not tell {n} pair{} apart",
                    plural(n)
                )?;
                write_invented(f, invented)
            }
            (n, 0, _) => {
                write!(
                    f,
                    "The old bench put {n} pair{} in the wrong order",
                    plural(n)
                )?;
                write_invented(f, invented)
            }
            (n, m, 0) => write!(
                f,
                "The old bench put {n} pair{} in the wrong order, and could not tell {m} apart",
                plural(n)
            ),
            (n, m, _) => {
                write!(
                    f,
                    "The old bench put {n} pair{} in the wrong order, could not tell {m} apart",
                    plural(n)
                )?;
                write_invented(f, invented)
            }
        }
    }
}

fn write_right<W: fmt::Write>(f: &mut fmt::Formatter<W>, right: usize) -> fmt::Result {
    match right {
        0 => write!(f, "No group has two settings to compare"),
        1 => write!(f, "The old bench had the only pair in the right order"),
        _ => write!(f, "The old bench had all {right} pairs in the right order"),
    }
}

fn write_invented<W: fmt::Write>(f: &mut fmt::Formatter<W>, invented: usize) -> fmt::Result {
    if invented == 0 {
        return Ok(());
    }
    write!(
        f,
        ", and made a difference in {invented} where there is none"
    )
}
