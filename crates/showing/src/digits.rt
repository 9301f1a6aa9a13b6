//! Digits of numbers.

ghost use Rattle.std.specs.Prelude.{◌≡◌, ◌++◌, ◌/◌, ◌%◌, ◌^◌, ◌<◌, OnOk, unsigned_abs};
ghost use Rattle.std.specs.Io.KnownBytes.{Appends};
ghost use Rattle.showing.specs.Digits.{
  at_least,
  decimal_text,
  fixed_digits,
  fraction_text,
  hex_text,
  scaled_text,
  sign_text,
};

use std::io;
use std::io::Write;

/// The number without its last `places` digits.
#[tactic(auto, using(crate::proofs::Powers::shifts))]
pub(crate) fn shifted(number: u128, places: u8) -> u128
    ensures { result ≡ number / 10 ^ places }
{
    match 10u128.checked_pow(u32::from(places)) {
        Some(power) => number / power,
        None => 0,
    }
}

/// Writes the last `count` digits of a number, with zeros before them where it has fewer.
#[tactic(auto, using(crate::proofs::WrittenTexts::appends))]
pub(crate) fn write_digits<W: Write>(out: &mut W, number: u128, count: u8) -> io::Result<()>
    ensures { OnOk result (Appends (W.contents out.old) (W.contents out.new) (fixed_digits count number)) }
{
    let mut left = count;
    while left > 0 {
        left -= 1;
        let digit = (shifted(number, left) % 10) as u8;
        out.write_all(&[b'0' + digit])?;
    }
    Ok(())
}

/// Writes `count` digits of a number, or as many as it has where these are more.
pub(crate) fn write_at_least<W: Write>(out: &mut W, number: u128, count: u8) -> io::Result<()>
    ensures { OnOk result (Appends (W.contents out.old) (W.contents out.new) (at_least count number)) }
{
    if shifted(number, count) == 0 {
        write_digits(out, number, count)
    } else {
        write!(out, "{number}")
    }
}

/// Writes the sign of a number below 0.
pub(crate) fn write_sign<W: Write>(out: &mut W, number: i128) -> io::Result<()>
    ensures { OnOk result (Appends (W.contents out.old) (W.contents out.new) (sign_text number)) }
{
    if number < 0 {
        out.write_all(b"-")?;
    }
    Ok(())
}

/// Writes a point and the last `scale` digits of a number; nothing where the scale is 0.
#[tactic(auto, using(crate::proofs::WrittenTexts::appends))]
pub(crate) fn write_fraction<W: Write>(out: &mut W, number: u128, scale: u8) -> io::Result<()>
    ensures { OnOk result (Appends (W.contents out.old) (W.contents out.new) (fraction_text scale number)) }
{
    if scale == 0 {
        return Ok(());
    }
    out.write_all(b".")?;
    write_digits(out, number, scale)
}

/// Writes a number divided by the power of ten with this exponent.
#[tactic(auto, using(crate::proofs::WrittenTexts::appends))]
pub(crate) fn write_scaled<W: Write>(out: &mut W, number: u128, scale: u8) -> io::Result<()>
    ensures { OnOk result (Appends (W.contents out.old) (W.contents out.new) (scaled_text scale number)) }
{
    let whole = shifted(number, scale);
    write!(out, "{whole}")?;
    write_fraction(out, number, scale)
}

/// Writes a decimal by its unscaled number, with `scale` digits after the point.
#[tactic(auto, using(crate::proofs::WrittenTexts::appends))]
pub(crate) fn write_decimal<W: Write>(out: &mut W, unscaled: i128, scale: u8) -> io::Result<()>
    ensures { OnOk result (Appends (W.contents out.old) (W.contents out.new) (decimal_text scale unscaled)) }
{
    write_sign(out, unscaled)?;
    write_scaled(out, unscaled.unsigned_abs(), scale)
}

/// Writes two hexadecimal digits for each byte.
pub(crate) fn write_hex<W: Write>(out: &mut W, bytes: &[u8]) -> io::Result<()>
    ensures { OnOk result (Appends (W.contents out.old) (W.contents out.new) (hex_text bytes.now)) }
{
    for byte in bytes {
        write!(out, "{byte:02x}")?;
    }
    Ok(())
}
