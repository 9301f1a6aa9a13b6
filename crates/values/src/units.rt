//! The units of dates and times.

ghost use Rattle.std.specs.Prelude.{◌≡◌, ◌≤◌};
ghost use Rattle.values.specs.ColTypes.{bits_of_time, width_of_date, width_of_time};

use crate::layout::IntWidth;

/// The unit of a date: Schema.fbs, enum `DateUnit`.
#[derive(Clone, Copy, Debug, PartialEq, Eq)]
pub enum DateUnit {
    Day,
    Millisecond,
}

impl DateUnit {
    /// How wide a date of this unit is.
    pub fn width(self) -> IntWidth
        ensures { result ≡ width_of_date self }
    {
        match self {
            DateUnit::Day => IntWidth::Bits32,
            DateUnit::Millisecond => IntWidth::Bits64,
        }
    }
}

/// The unit of a time, a timestamp or a duration: Schema.fbs, enum `TimeUnit`.
#[derive(Clone, Copy, Debug, PartialEq, Eq)]
pub enum TimeUnit {
    Second,
    Millisecond,
    Microsecond,
    Nanosecond,
}

impl TimeUnit {
    /// How wide a time of this unit is. Timestamps and durations have 64 bits in any.
    pub fn width(self) -> IntWidth
        ensures { result ≡ width_of_time self }
    {
        match self {
            TimeUnit::Second | TimeUnit::Millisecond => IntWidth::Bits32,
            TimeUnit::Microsecond | TimeUnit::Nanosecond => IntWidth::Bits64,
        }
    }

    /// How wide a time of this unit is, in bits.
    pub fn bits(self) -> u32
        ensures value { result ≡ bits_of_time self }
        ensures few { result ≤ 64 }
    {
        self.width().bits()
    }
}
