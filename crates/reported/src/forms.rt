// How numbers are shown. Times are in ns; what is shown of one is cut, never rounded. A width counts for all of a number, and what does not
// fill it stands at its right.
use std::fmt;

const NS_PER_S: u64 = 1_000_000_000;

const NS_PER_MS: u64 = 1_000_000;

const NS_PER_TENTH: u64 = 100_000_000;

// The width that is left for what has so many characters behind it.
fn room<W: fmt::Write>(f: &fmt::Formatter<W>, behind: usize) -> usize {
    f.width().unwrap_or(0).saturating_sub(behind)
}

// A number with all the digits of its decimals.
#[derive(Clone, Copy)]
pub struct Decimal {
    whole: u64,
    part: u64,
    digits: usize,
}

impl Decimal {
    pub fn tenths(n: u64) -> Decimal {
        Decimal {
            whole: n / 10,
            part: n % 10,
            digits: 1,
        }
    }

    pub fn thousandths(n: u64) -> Decimal {
        Decimal {
            whole: n / 1_000,
            part: n % 1_000,
            digits: 3,
        }
    }

    pub fn ms(ns: u64) -> Decimal {
        Decimal {
            whole: ns / NS_PER_MS,
            part: ns % NS_PER_MS,
            digits: 6,
        }
    }

    pub fn seconds(ns: u64) -> Decimal {
        Decimal {
            whole: ns / NS_PER_S,
            part: ns % NS_PER_S,
            digits: 9,
        }
    }
}

impl fmt::Display for Decimal {
    fn fmt<W: fmt::Write>(&self, f: &mut fmt::Formatter<W>) -> fmt::Result {
        let Decimal {
            whole,
            part,
            digits,
        } = *self;
        let width = room(f, digits.saturating_add(1));
        write!(f, "{whole:width$}.{part:0digits$}")
    }
}

// Thousandths without the zeros at the end.
#[derive(Clone, Copy)]
pub struct Shortest(pub u64);

impl fmt::Display for Shortest {
    fn fmt<W: fmt::Write>(&self, f: &mut fmt::Formatter<W>) -> fmt::Result {
        let whole = self.0 / 1_000;
        let part = self.0 % 1_000;
        if part == 0 {
            write!(f, "{whole}")
        } else if part % 100 == 0 {
            write!(f, "{whole}.{}", part / 100)
        } else if part % 10 == 0 {
            write!(f, "{whole}.{:02}", part / 10)
        } else {
            write!(f, "{whole}.{part:03}")
        }
    }
}

// A number below a million with a comma before its last three digits.
#[derive(Clone, Copy)]
pub struct Grouped(pub u64);

impl fmt::Display for Grouped {
    fn fmt<W: fmt::Write>(&self, f: &mut fmt::Formatter<W>) -> fmt::Result {
        let thousands = self.0 / 1_000;
        let rest = self.0 % 1_000;
        if thousands == 0 {
            write!(f, "{rest}")
        } else {
            write!(f, "{thousands},{rest:03}")
        }
    }
}

// A time in ms with one digit.
#[derive(Clone, Copy)]
pub struct GroupedMs(pub u64);

impl fmt::Display for GroupedMs {
    fn fmt<W: fmt::Write>(&self, f: &mut fmt::Formatter<W>) -> fmt::Result {
        write!(
            f,
            "{}.{}",
            Grouped(self.0 / NS_PER_MS),
            self.0 / 100_000 % 10
        )
    }
}

// A time as h:mm:ss.
#[derive(Clone, Copy)]
pub struct Clock(pub u64);

impl fmt::Display for Clock {
    fn fmt<W: fmt::Write>(&self, f: &mut fmt::Formatter<W>) -> fmt::Result {
        let s = self.0 / NS_PER_S;
        let width = room(f, 6);
        write!(f, "{:width$}:{:02}:{:02}", s / 3_600, s / 60 % 60, s % 60)
    }
}

// A time as h:mm:ss.mmm.
#[derive(Clone, Copy)]
pub struct LongClock(pub u64);

impl fmt::Display for LongClock {
    fn fmt<W: fmt::Write>(&self, f: &mut fmt::Formatter<W>) -> fmt::Result {
        let width = room(f, 4);
        let ms = self.0 / NS_PER_MS % 1_000;
        write!(f, "{:width$}.{ms:03}", Clock(self.0))
    }
}

// A difference of times as m:ss.t, from an hour on as h:mm:ss.t.
#[derive(Clone, Copy)]
pub struct Delay(pub u64);

impl fmt::Display for Delay {
    fn fmt<W: fmt::Write>(&self, f: &mut fmt::Formatter<W>) -> fmt::Result {
        let s = self.0 / NS_PER_S;
        let tenth = self.0 / NS_PER_TENTH % 10;
        if s < 3_600 {
            write_first(f, s / 60, 5)?;
            write!(f, ":{:02}.{tenth}", s % 60)
        } else {
            write_first(f, s / 3_600, 8)?;
            write!(f, ":{:02}:{:02}.{tenth}", s / 60 % 60, s % 60)
        }
    }
}

// The first number of some, with so many characters behind it.
fn write_first<W: fmt::Write>(f: &mut fmt::Formatter<W>, n: u64, behind: usize) -> fmt::Result {
    let width = room(f, behind);
    if f.sign_plus() {
        write!(f, "{n:+width$}")
    } else {
        write!(f, "{n:width$}")
    }
}

// The same in a sentence, where one that would be cut to nothing is told as what it is.
#[derive(Clone, Copy)]
pub struct Apart(pub u64);

impl fmt::Display for Apart {
    fn fmt<W: fmt::Write>(&self, f: &mut fmt::Formatter<W>) -> fmt::Result {
        if self.0 < NS_PER_TENTH {
            write!(f, "less than 0.1 s")
        } else {
            write!(f, "{}", Delay(self.0))
        }
    }
}

// What a noun has behind it where there is not one of them.
pub fn plural(n: usize) -> &'static str {
    if n == 1 { "" } else { "s" }
}
