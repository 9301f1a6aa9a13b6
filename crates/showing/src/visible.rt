//! Characters that a terminal must not see: control characters, and those that end a line or change the direction of a
//! text.

ghost use Rattle.std.specs.Prelude.{◌≡◌, OnOk};
ghost use Rattle.std.specs.Io.KnownBytes.{Appends};
ghost use Rattle.showing.specs.Visible.{is_hidden, visible_char, visible_text};

use std::io;
use std::io::Write;

/// Whether a terminal could take the character for more than one to be shown.
pub(crate) fn is_hidden(c: char) -> bool
    ensures { result ≡ is_hidden c }
{
    let c = u32::from(c);
    c <= 0x1f
        || (0x7f <= c && c <= 0x9f)
        || c == 0x61c
        || (0x200e <= c && c <= 0x200f)
        || (0x2028 <= c && c <= 0x202e)
        || (0x2066 <= c && c <= 0x2069)
}

fn write_char<W: Write>(out: &mut W, c: char) -> io::Result<()>
    ensures { OnOk result (Appends (W.contents out.old) (W.contents out.new) (visible_char c)) }
{
    match c {
        '\n' => out.write_all(b"\\n"),
        '\r' => out.write_all(b"\\r"),
        '\t' => out.write_all(b"\\t"),
        c if is_hidden(c) => {
            let number = u32::from(c);
            write!(out, "\\u{{{number:x}}}")
        }
        c => write!(out, "{c}"),
    }
}

/// Writes a text for a terminal: hidden characters are written as `\n`, `\r`, `\t`, or by their number as `\u{1b}`.
pub(crate) fn write_visible<W: Write>(out: &mut W, text: &str) -> io::Result<()>
    ensures { OnOk result (Appends (W.contents out.old) (W.contents out.new) (visible_text text.now)) }
{
    for c in text.chars() {
        write_char(out, c)?;
    }
    Ok(())
}
