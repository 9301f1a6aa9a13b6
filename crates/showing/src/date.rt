//! Dates and times as text: ISO 8601, on the Gregorian calendar for all years.

ghost use Rattle.std.specs.Prelude.{◌≡◌, ◌<◌, ◌≤◌, OnOk, unsigned_abs};
ghost use Rattle.std.specs.Io.KnownBytes.{Appends};
ghost use Rattle.std.specs.Int.{int_div_euclid, int_rem_euclid};
ghost use Rattle.showing.specs.Dates.{
  civil,
  civil_day,
  civil_month,
  civil_text,
  civil_year,
  clock_text,
  date_after,
  date_back,
  date_before,
  date_text,
  day_in,
  duration_text,
  instant_text,
  long_date_text,
  month_in,
  scale_of,
  seconds_text,
  time_text,
  timestamp_text,
  units_of_day,
  year_in,
  year_sign,
  year_text,
  zone_text,
};

use crate::digits::{
    shifted, write_at_least, write_digits, write_fraction, write_scaled, write_sign,
};
use std::io;
use std::io::Write;
use values::TimeUnit;

/// A date of the Gregorian calendar.
#[derive(Clone, Copy, Debug, PartialEq, Eq)]
pub(crate) struct Date {
    /// Whether the year is counted before the year 0, which is the one before year 1.
    pub before: bool,
    pub year: u128,
    pub month: u32,
    pub day: u32,
}

/// The days of 400 years, after which the calendar repeats.
const DAYS_OF_ERA: u128 = 146_097;

/// The days from the first of March of the year 0 to the first of January of 1970.
const DAYS_TO_1970: u128 = 719_468;

/// The year of a day by its number in its era, counted from the first of March on.
fn year_in(day: u32) -> u32
    requires { day < 146097 }
    ensures value { result ≡ year_in day }
    ensures few { result ≤ 399 }
{
    (day + day / 36_524 - day / 1_460 - day / 146_096) / 365
}

/// The day in its year.
fn day_in(day: u32) -> u32
    requires { day < 146097 }
    ensures value { result ≡ day_in day }
    ensures few { result ≤ 365 }
{
    let year = year_in(day);
    day + year / 100 - year / 4 - 365 * year
}

/// The month, from 0 for March.
fn month_in(day: u32) -> u32
    requires { day < 146097 }
    ensures value { result ≡ month_in day }
    ensures few { result ≤ 11 }
{
    (5 * day_in(day) + 2) / 153
}

/// The year in the era, counted from January on.
fn civil_year(day: u32) -> u32
    requires { day < 146097 }
    ensures value { result ≡ civil_year day }
    ensures few { result ≤ 400 }
{
    if month_in(day) < 10 {
        year_in(day)
    } else {
        year_in(day) + 1
    }
}

/// The month, from 1 for January.
fn civil_month(day: u32) -> u32
    requires { day < 146097 }
    ensures { result ≡ civil_month day }
{
    let month = month_in(day);
    if month < 10 { month + 3 } else { month - 9 }
}

/// The day in its month, from 1.
fn civil_day(day: u32) -> u32
    requires { day < 146097 }
    ensures { result ≡ civil_day day }
{
    day_in(day) - (153 * month_in(day) + 2) / 5 + 1
}

/// The date this many days after the first of March of the year 0.
fn date_after(days: u128) -> Date
    ensures { result ≡ date_after days }
{
    let day = (days % DAYS_OF_ERA) as u32;
    Date {
        before: false,
        year: 400 * (days / DAYS_OF_ERA) + u128::from(civil_year(day)),
        month: civil_month(day),
        day: civil_day(day),
    }
}

/// The date this many days before the first of March of the year 0.
fn date_before(days: u128) -> Date
    requires { 0 < days }
    ensures { result ≡ date_before days }
{
    let day = 146_096 - ((days - 1) % DAYS_OF_ERA) as u32;
    Date {
        before: true,
        year: 400 * ((days - 1) / DAYS_OF_ERA + 1) - u128::from(civil_year(day)),
        month: civil_month(day),
        day: civil_day(day),
    }
}

/// The date this many days before the first of January of 1970.
fn date_back(days: u128) -> Date
    ensures { result ≡ date_back days }
{
    if days <= DAYS_TO_1970 {
        date_after(DAYS_TO_1970 - days)
    } else {
        date_before(days - DAYS_TO_1970)
    }
}

/// The date this many days after the first of January of 1970, or before it where the number is below 0.
fn civil(days: i128) -> Date
    ensures { result ≡ civil days }
{
    if days.is_negative() {
        date_back(days.unsigned_abs())
    } else {
        date_after(days.unsigned_abs() + DAYS_TO_1970)
    }
}

/// Writes the sign of a year: one before year 0 or after year 9999 has one.
fn write_year_sign<W: Write>(out: &mut W, before: bool, year: u128) -> io::Result<()>
    ensures { OnOk result (Appends (W.contents out.old) (W.contents out.new) (year_sign before year)) }
{
    if before && year != 0 {
        out.write_all(b"-")
    } else if year > 9_999 {
        out.write_all(b"+")
    } else {
        Ok(())
    }
}

/// Writes a year of four digits, or with a sign and at least as many.
#[tactic(auto, using(crate::proofs::WrittenTexts::appends))]
fn write_year<W: Write>(out: &mut W, before: bool, year: u128) -> io::Result<()>
    ensures { OnOk result (Appends (W.contents out.old) (W.contents out.new) (year_text before year)) }
{
    write_year_sign(out, before, year)?;
    write_at_least(out, year, 4)
}

#[tactic(auto, using(crate::proofs::WrittenTexts::appends))]
fn write_civil<W: Write>(out: &mut W, date: Date) -> io::Result<()>
    ensures { OnOk result (Appends (W.contents out.old) (W.contents out.new) (civil_text date)) }
{
    write_year(out, date.before, date.year)?;
    out.write_all(b"-")?;
    write_digits(out, u128::from(date.month), 2)?;
    out.write_all(b"-")?;
    write_digits(out, u128::from(date.day), 2)
}

/// Writes the date this many days after the first of January of 1970.
pub(crate) fn write_date<W: Write>(out: &mut W, days: i128) -> io::Result<()>
    ensures { OnOk result (Appends (W.contents out.old) (W.contents out.new) (date_text days)) }
{
    write_civil(out, civil(days))
}

/// How many digits of a second a unit has.
fn scale(unit: TimeUnit) -> u8
    ensures value { result ≡ scale_of unit }
    ensures few { result ≤ 9 }
{
    match unit {
        TimeUnit::Second => 0,
        TimeUnit::Millisecond => 3,
        TimeUnit::Microsecond => 6,
        TimeUnit::Nanosecond => 9,
    }
}

/// Writes hours, minutes and seconds. The hours are not bounded by those of a day.
#[tactic(auto, using(crate::proofs::WrittenTexts::appends))]
fn write_seconds<W: Write>(out: &mut W, seconds: u128) -> io::Result<()>
    ensures { OnOk result (Appends (W.contents out.old) (W.contents out.new) (seconds_text seconds)) }
{
    write_at_least(out, seconds / 3_600, 2)?;
    out.write_all(b":")?;
    write_digits(out, seconds / 60 % 60, 2)?;
    out.write_all(b":")?;
    write_digits(out, seconds % 60, 2)
}

/// Writes a time since midnight.
#[tactic(auto, using(crate::proofs::WrittenTexts::appends))]
fn write_clock<W: Write>(out: &mut W, time: u128, unit: TimeUnit) -> io::Result<()>
    ensures { OnOk result (Appends (W.contents out.old) (W.contents out.new) (clock_text (scale_of unit) time)) }
{
    let scale = scale(unit);
    write_seconds(out, shifted(time, scale))?;
    write_fraction(out, time, scale)
}

/// Writes a time of day. One before midnight has a sign, and one after the day more than 23 hours.
#[tactic(auto, using(crate::proofs::WrittenTexts::appends))]
pub(crate) fn write_time<W: Write>(out: &mut W, time: i128, unit: TimeUnit) -> io::Result<()>
    ensures { OnOk result (Appends (W.contents out.old) (W.contents out.new) (time_text (scale_of unit) time)) }
{
    write_sign(out, time)?;
    write_clock(out, time.unsigned_abs(), unit)
}

/// The day of a time since the beginning of 1970.
fn day_of(time: i128, unit: TimeUnit) -> i128
    ensures { result ≡ int_div_euclid time (units_of_day (scale_of unit)) }
{
    match unit {
        TimeUnit::Second => time.div_euclid(86_400),
        TimeUnit::Millisecond => time.div_euclid(86_400_000),
        TimeUnit::Microsecond => time.div_euclid(86_400_000_000),
        TimeUnit::Nanosecond => time.div_euclid(86_400_000_000_000),
    }
}

/// The time since the midnight before a time.
fn time_of_day(time: i128, unit: TimeUnit) -> u128
    ensures { result ≡ unsigned_abs (int_rem_euclid time (units_of_day (scale_of unit))) }
{
    let rest = match unit {
        TimeUnit::Second => time.rem_euclid(86_400),
        TimeUnit::Millisecond => time.rem_euclid(86_400_000),
        TimeUnit::Microsecond => time.rem_euclid(86_400_000_000),
        TimeUnit::Nanosecond => time.rem_euclid(86_400_000_000_000),
    };
    rest.unsigned_abs()
}

/// Writes a date with the time of day, by the time since the beginning of 1970.
#[tactic(auto, using(crate::proofs::WrittenTexts::appends))]
fn write_instant<W: Write>(out: &mut W, time: i128, unit: TimeUnit) -> io::Result<()>
    ensures { OnOk result (Appends (W.contents out.old) (W.contents out.new) (instant_text (scale_of unit) time)) }
{
    write_date(out, day_of(time, unit))?;
    out.write_all(b"T")?;
    write_clock(out, time_of_day(time, unit), unit)
}

/// Writes `Z`, for UTC, after an instant.
fn write_zone<W: Write>(out: &mut W, is_instant: bool) -> io::Result<()>
    ensures { OnOk result (Appends (W.contents out.old) (W.contents out.new) (zone_text is_instant)) }
{
    if is_instant {
        out.write_all(b"Z")?;
    }
    Ok(())
}

/// Writes a timestamp: an instant in UTC, or where the type has no zone a date and a time.
#[tactic(auto, using(crate::proofs::WrittenTexts::appends))]
pub(crate) fn write_timestamp<W: Write>(
    out: &mut W,
    time: i128,
    unit: TimeUnit,
    is_instant: bool,
) -> io::Result<()>
    ensures { OnOk result
        (Appends (W.contents out.old) (W.contents out.new) (timestamp_text (scale_of unit) is_instant time)) }
{
    write_instant(out, time, unit)?;
    write_zone(out, is_instant)
}

/// Writes a date by milliseconds since the beginning of 1970. One that isn't a midnight has its time of day.
pub(crate) fn write_long_date<W: Write>(out: &mut W, time: i128) -> io::Result<()>
    ensures { OnOk result (Appends (W.contents out.old) (W.contents out.new) (long_date_text time)) }
{
    if time_of_day(time, TimeUnit::Millisecond) == 0 {
        write_date(out, day_of(time, TimeUnit::Millisecond))
    } else {
        write_instant(out, time, TimeUnit::Millisecond)
    }
}

/// Writes a duration in seconds.
#[tactic(auto, using(crate::proofs::WrittenTexts::appends))]
pub(crate) fn write_duration<W: Write>(out: &mut W, time: i128, unit: TimeUnit) -> io::Result<()>
    ensures { OnOk result (Appends (W.contents out.old) (W.contents out.new) (duration_text (scale_of unit) time)) }
{
    write_sign(out, time)?;
    out.write_all(b"PT")?;
    write_scaled(out, time.unsigned_abs(), scale(unit))?;
    out.write_all(b"S")
}
