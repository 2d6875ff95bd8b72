// The four units that the bench and the ROM count in, how far two counts of loops lie apart, and what the host sees on the line. A count
// crosses from one unit to another by the conversions here and in no other way.
#![tactic(auto)]

ghost use Rattle.std.specs.Prelude.{◌≡◌, min, nat_abs};
ghost use Rattle.units.specs.Units.{most, longs_in, bytes_in, end_of, loops_of, loops_in, difference};

// Ticks of the bench's clock.
#[derive(Clone, Copy, PartialEq, Eq, PartialOrd, Ord, Debug)]
pub struct Ticks(pub u64);

// Loops of the chip's wait for an edge: the ROM counts them in 32 bits.
#[derive(Clone, Copy, PartialEq, Eq, PartialOrd, Ord, Debug)]
pub struct Loops(pub u32);

// A count of loops less another. 64 bits hold it for any two counts.
#[derive(Clone, Copy, PartialEq, Eq, PartialOrd, Ord, Debug)]
pub struct Distance(pub i64);

// Bytes of an image or of a memory.
#[derive(Clone, Copy, PartialEq, Eq, PartialOrd, Ord, Debug)]
pub struct Bytes(pub usize);

// Longs of four bytes: the ROM takes their number in 32 bits.
#[derive(Clone, Copy, PartialEq, Eq, PartialOrd, Ord, Debug)]
pub struct Longs(pub u32);

// What the host sees around a pulse, and what the chip replies at its rise.
#[derive(Clone, Copy, PartialEq, Eq, Debug)]
pub enum Seen {
    Silence,
    Zero,
    One,
}

impl Bytes {
    // The bytes of the RAM, and of the EEPROM.
    pub const MEMORY: Bytes = Bytes(32_768);

    // The bytes of a page of either.
    pub const PAGE: Bytes = Bytes(64);

    // The whole longs in these bytes: one to three bytes left over do not count. More longs than the ROM can count are
    // `u32::MAX` longs.
    pub fn to_longs(self) -> Longs
        ensures { result.0 ≡ longs_in self.0 }
    {
        Longs(u32::try_from(self.0 / 4).unwrap_or(u32::MAX))
    }
}

impl Longs {
    // The bytes of these longs.
    pub fn to_bytes(self) -> Bytes
        ensures { result.0 ≡ bytes_in self.0 }
    {
        Bytes(self.0 as usize * 4)
    }

    // Where the long of this number ends, the first being number 0.
    pub fn to_end(self) -> Bytes
        ensures { result.0 ≡ end_of self.0 }
    {
        Bytes(self.0 as usize * 4 + 4)
    }
}

impl Loops {
    // The loops of a count that was recorded: more loops than the ROM can count are `u32::MAX` loops.
    pub fn of(n: u64) -> Loops
        ensures { result.0 ≡ loops_of n }
    {
        Loops(u32::try_from(n).unwrap_or(u32::MAX))
    }

    // These loops less others: negative where they are fewer.
    #[tactic(auto, unfolding(crate::specs::Units::difference))]
    pub fn minus(self, others: Loops) -> Distance
        ensures { result.0 ≡ difference self.0 others.0 }
    {
        Distance(i64::from(self.0) - i64::from(others.0))
    }
}

impl Distance {
    // How far it is, without its sign.
    pub fn size(self) -> u64
        ensures { result ≡ nat_abs self.0 }
    {
        self.0.unsigned_abs()
    }
}

impl Ticks {
    // The whole loops of `l` ps in these ticks of `p` ps: the largest count, up to `u32::MAX`, that lasts no longer than they do.
    // Loops that last no time (`l` is 0) never outlast them, so that they count `u32::MAX`.
    #[tactic(auto, using(crate::proofs::Conversions::no_length, crate::proofs::Conversions::some_length, crate::proofs::Conversions::loops_capped))]
    pub fn to_loops(self, p: u32, l: u32) -> Loops
        ensures { result.0 ≡ loops_in self.0 p l }
    {
        if l == 0 {
            return Loops(u32::MAX);
        }
        Loops::of(self.0.saturating_mul(u64::from(p)) / u64::from(l))
    }
}
