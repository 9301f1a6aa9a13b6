//! What is printed to standard error where help is asked for.

use std::io::Write;

const VERSION: &str = "lv 1.0.7\n";

const USAGE: &str = "\
Usage: lv inspect FILE          prints, message by message, what a stream holds
       lv show FILE [--rows N] [--csv]
                                prints the rows of a stream, as a table or as CSV
       lv recast IN OUT         writes the canonical stream of the table that a stream holds
       lv check CONFIG          checks a configuration of tables, feeds and views
       lv run CONFIG SCRIPT     runs a script over the tables of a configuration
       lv live CONFIG           runs lines of standard input as they come, and answers each at once
- is standard input as a file that is read, and standard output as one that is written.
";

/// The text that is asked for by `words`, the arguments after the program's own name: by the first of them, or by one
/// before `--`.
fn text(words: &[String]) -> Option<&'static str> {
    match words.first()?.as_str() {
        "--version" | "-V" => return Some(VERSION),
        "help" => return Some(USAGE),
        _ => {}
    }
    for word in words {
        match word.as_str() {
            "--help" | "-h" => return Some(USAGE),
            "--" => return None,
            _ => {}
        }
    }
    None
}

/// Writes the usage or the version to `error`, if it is asked for.
pub fn tell<W: Write>(words: &[String], error: &mut W) {
    if let Some(text) = text(words) {
        // It doesn't matter whether it can be written: the answer of `lv` has gone to standard output.
        let _ = error.write_all(text.as_bytes());
    }
}
