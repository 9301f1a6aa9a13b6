//! Numbers as text, by the type of their column.

ghost use Rattle.std.specs.Prelude.{◌≡◌, OnOk};
ghost use Rattle.std.specs.Io.KnownBytes.{Appends};
ghost use Rattle.showing.specs.Numbers.{date_by, number_text};

use crate::date::{write_date, write_duration, write_long_date, write_time, write_timestamp};
use crate::digits::write_decimal;
use std::io;
use std::io::Write;
use values::{ColType, DateUnit};

fn write_date_by<W: Write>(out: &mut W, unit: DateUnit, number: i128) -> io::Result<()>
    ensures { OnOk result (Appends (W.contents out.old) (W.contents out.new) (date_by unit number)) }
{
    match unit {
        DateUnit::Day => write_date(out, number),
        DateUnit::Millisecond => write_long_date(out, number),
    }
}

/// Writes a number of a column of this type: a decimal with its point, a date or a time by ISO 8601, and a whole number
/// by its digits.
pub(crate) fn write_number<W: Write>(out: &mut W, stored: &ColType, number: i128) -> io::Result<()>
    ensures { OnOk result (Appends (W.contents out.old) (W.contents out.new) (number_text stored.now number)) }
{
    match stored {
        ColType::Decimal { scale, .. } => write_decimal(out, number, *scale),
        ColType::Date { unit } => write_date_by(out, *unit, number),
        ColType::Time { unit } => write_time(out, number, *unit),
        ColType::Timestamp { unit, zone } => {
            write_timestamp(out, number, *unit, !zone.as_str().is_empty())
        }
        ColType::Duration { unit } => write_duration(out, number, *unit),
        _ => write!(out, "{number}"),
    }
}
