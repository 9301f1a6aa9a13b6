//! Reads the lines of scripts.

use std::str::Split;

/// A command of a script.
#[derive(Clone, Copy, Debug, PartialEq, Eq)]
pub(crate) enum Command<'a> {
    /// Pushes a file to a feed until all of it is used.
    Feed {
        name: &'a str,
        path: &'a str,
    },
    /// Pushes the `len` bytes of the file from offset `from` on, or as many as it has.
    Piece {
        name: &'a str,
        path: &'a str,
        from: u64,
        len: u64,
    },
    /// Ends the input of a feed.
    Finish {
        name: &'a str,
    },
    /// Undoes the latest accepted edit.
    Undo,
    /// Writes a view to a file.
    Write {
        view: &'a str,
        path: &'a str,
    },
    /// Prints the rows of a view as a table.
    Show {
        view: &'a str,
    },
}

/// A line of a script.
#[derive(Clone, Copy, Debug, PartialEq, Eq)]
pub(crate) enum Line<'a> {
    /// An empty line, or one that begins with `#`, which is skipped.
    Blank,
    Command(Command<'a>),
    /// A line of another form, or one that isn't UTF-8.
    Wrong,
}

/// Reads a line, without the line feed that ends it.
pub(crate) fn read_line(line: &[u8]) -> Line<'_> {
    if line.is_empty() || line[0] == b'#' {
        return Line::Blank;
    }
    let Ok(text) = str::from_utf8(line) else {
        return Line::Wrong;
    };
    match read_command(text) {
        Some(command) => Line::Command(command),
        None => Line::Wrong,
    }
}

/// Reads a command, whose words are separated by single spaces; `None` where the text isn't one.
fn read_command(text: &str) -> Option<Command<'_>> {
    let mut words = text.split(' ');
    let verb = words.next()?;
    let command = if verb == "feed" {
        Command::Feed {
            name: word(&mut words)?,
            path: word(&mut words)?,
        }
    } else if verb == "piece" {
        Command::Piece {
            name: word(&mut words)?,
            path: word(&mut words)?,
            from: number(word(&mut words)?)?,
            len: number(word(&mut words)?)?,
        }
    } else if verb == "finish" {
        Command::Finish {
            name: word(&mut words)?,
        }
    } else if verb == "undo" {
        Command::Undo
    } else if verb == "write" {
        Command::Write {
            view: word(&mut words)?,
            path: word(&mut words)?,
        }
    } else if verb == "show" {
        Command::Show {
            view: word(&mut words)?,
        }
    } else {
        return None;
    };
    match words.next() {
        Some(_) => None,
        None => Some(command),
    }
}

/// The next word; `None` where it is empty or there is none.
fn word<'a>(words: &mut Split<'a, char>) -> Option<&'a str> {
    match words.next() {
        Some(word) if !word.is_empty() => Some(word),
        _ => None,
    }
}

/// A number of 1 to 18 decimal digits.
pub(crate) fn number(word: &str) -> Option<u64> {
    let digits = word.as_bytes();
    if digits.is_empty() || digits.len() > 18 {
        return None;
    }
    let mut number = 0u64;
    for &digit in digits {
        if !digit.is_ascii_digit() {
            return None;
        }
        number = number
            .checked_mul(10)?
            .checked_add(u64::from(digit - b'0'))?;
    }
    Some(number)
}

/// A line of a live session.
#[derive(Clone, Copy, Debug, PartialEq, Eq)]
pub(crate) enum LiveLine<'a> {
    /// A line that a script may have too.
    Script(Line<'a>),
    /// Pushes the `len` bytes that follow the line on the input.
    Bytes { name: &'a str, len: u64 },
    /// Writes a view to the output of the answers.
    Send { view: &'a str },
}

/// Reads a line of a live session, without the line feed that ends it.
pub(crate) fn read_live_line(line: &[u8]) -> LiveLine<'_> {
    if let Ok(text) = str::from_utf8(line) {
        if let Some(line) = read_live_command(text) {
            return line;
        }
    }
    LiveLine::Script(read_line(line))
}

/// Reads a command that a live session has and a script hasn't; `None` where the text isn't one.
fn read_live_command(text: &str) -> Option<LiveLine<'_>> {
    let mut words = text.split(' ');
    let verb = words.next()?;
    let line = if verb == "bytes" {
        LiveLine::Bytes {
            name: word(&mut words)?,
            len: number(word(&mut words)?)?,
        }
    } else if verb == "send" {
        LiveLine::Send {
            view: word(&mut words)?,
        }
    } else {
        return None;
    };
    match words.next() {
        Some(_) => None,
        None => Some(line),
    }
}
