//! Types as text.

ghost use Rattle.std.specs.Prelude.{◌≡◌};
ghost use Rattle.values.specs.TypeText.{size_text};

use crate::col_type::ColType;
use crate::layout::OffsetWidth;
use crate::units::{DateUnit, TimeUnit};
use crate::zone::Zone;
use std::fmt;

impl fmt::Display for Zone {
    ghost use Rattle.std.specs.Prelude.{Some};

    ghost output = { λ z. Some z };

    fn fmt<W: fmt::Write>(&self, f: &mut fmt::Formatter<W>) -> fmt::Result {
        f.write_str(self.as_str())
    }
}

impl fmt::Display for TimeUnit {
    ghost use Rattle.std.specs.Prelude.{Some};
    ghost use Rattle.values.specs.TypeText.{unit_text};

    ghost output = { λ u. Some (unit_text u) };

    fn fmt<W: fmt::Write>(&self, f: &mut fmt::Formatter<W>) -> fmt::Result {
        f.write_str(match self {
            TimeUnit::Second => "s",
            TimeUnit::Millisecond => "ms",
            TimeUnit::Microsecond => "us",
            TimeUnit::Nanosecond => "ns",
        })
    }
}

/// The text before a type's name: `large_` where its offsets have 64 bits, else nothing.
fn size(offsets: OffsetWidth) -> &'static str
    ensures { result.now ≡ size_text offsets }
{
    match offsets {
        OffsetWidth::Bits32 => "",
        OffsetWidth::Bits64 => "large_",
    }
}

/// The type's name with its parameters, as `decimal[9, 2]`; of lists and structs the name alone.
impl fmt::Display for ColType {
    ghost use Rattle.std.specs.Prelude.{Some};
    ghost use Rattle.values.specs.TypeText.{type_text};

    ghost output = { λ t. Some (type_text t) };

    fn fmt<W: fmt::Write>(&self, f: &mut fmt::Formatter<W>) -> fmt::Result {
        match self {
            ColType::Bool => f.write_str("bool"),
            ColType::Int { width, signed } => {
                let sign = if *signed { "" } else { "u" };
                let bits = width.bits();
                write!(f, "{sign}int{bits}")
            }
            ColType::Decimal { precision, scale } => { write!(f, "decimal[{precision}, {scale}]") }
            ColType::Date { unit } => f.write_str(match unit {
                DateUnit::Day => "date32",
                DateUnit::Millisecond => "date64",
            }),
            ColType::Time { unit } => {
                let bits = unit.bits();
                write!(f, "time{bits}[{unit}]")
            }
            ColType::Timestamp { unit, zone } => {
                let comma = if zone.as_str().is_empty() { "" } else { ", " };
                write!(f, "timestamp[{unit}{comma}{zone}]")
            }
            ColType::Duration { unit } => write!(f, "duration[{unit}]"),
            ColType::Utf8 { offsets } => {
                let size = size(*offsets);
                write!(f, "{size}utf8")
            }
            ColType::Binary { offsets } => {
                let size = size(*offsets);
                write!(f, "{size}binary")
            }
            ColType::FixedSizeBinary { width } => write!(f, "fixed[{width}]"),
            ColType::List { offsets } => {
                let size = size(*offsets);
                write!(f, "{size}list")
            }
            ColType::Struct => f.write_str("struct"),
        }
    }
}
