//! What `lv run` and `lv live` do with lines, over a few files in memory.

use crate::sample::SAMPLE;
use liveviews::{FileFault, Files, lv};
use std::alloc::Global;
use std::fmt::Display;
use std::io;
use std::io::Read;
use std::process::Abort;
use std::test::Fail;
use stream_writer::{DeviceFault, MemorySink, Sink};

const CONFIG: &[u8] = br#"
[main]
key = "k"
columns = [["k", "int64"], ["v", "int64"]]
[feed.add]
role = "append"
[view.t]
columns = [["k", "col", "k"], ["v", "col", "v"]]
"#;

/// The configuration `config`, the sample `stream`, and the lines of standard input, which are a script too. What is
/// put is written to one file, whatever its name.
#[derive(Drop)]
struct Desk<'a> {
    alloc: Global,
    lines: &'a [u8],
    written: Vec<u8>,
    is_open: bool,
    is_aside: bool,
    failures: u64,
}

impl<'a> Desk<'a> {
    fn held(&self, path: &str) -> Result<&'a [u8], FileFault> {
        match path {
            "config" => Ok(CONFIG),
            "stream" => Ok(&SAMPLE),
            "-" => Ok(self.lines),
            _ => Err(FileFault::Unusable),
        }
    }
}

impl Sink for Desk<'_> {
    ghost use Rattle.std.specs.Prelude.{Some};

    ghost sunk = { λ s. record { taken = Some s.written.items; failures = s.failures } };

    fn put(&mut self, piece: &[u8]) -> Result<usize, DeviceFault> {
        if piece.is_empty() {
            return Ok(0);
        }
        if self.is_open && self.written.extend_from_slice(piece).is_ok() {
            return Ok(piece.len());
        }
        self.failures = self.failures.wrapping_add(1);
        Err(DeviceFault)
    }
}

/// A file that is read from memory.
#[derive(Drop)]
struct Held<'a> {
    left: &'a [u8],
}

impl Read for Held<'_> {
    fn read(&mut self, room: &mut [u8]) -> io::Result<usize> {
        self.left.read(room)
    }
}

impl<'a> Files for Desk<'a> {
    ghost use Rattle.std.specs.Prelude.{None};

    ghost content = { λ _ _. None };

    ghost not_created = { λ _. None };

    type Input = Held<'a>;

    type New = MemorySink;

    fn read(&mut self, path: &str) -> Result<Vec<u8>, FileFault> {
        let mut bytes = Vec::new(self.alloc);
        bytes.extend_from_slice(self.held(path)?)?;
        Ok(bytes)
    }

    fn open(&mut self, path: &str) -> Result<Held<'a>, FileFault> {
        Ok(Held {
            left: self.held(path)?,
        })
    }

    fn create(&mut self, _path: &str) -> Result<(), FileFault> {
        self.is_open = true;
        Ok(())
    }

    fn close(&mut self) {
        self.is_open = false;
    }

    fn begin_new(&mut self, _path: &str) -> Result<Option<MemorySink>, FileFault> {
        Ok(None)
    }

    fn place(&mut self, _file: MemorySink, _path: &str) -> Result<(), DeviceFault> {
        self.failures = self.failures.wrapping_add(1);
        Err(DeviceFault)
    }

    fn discard(&mut self, _file: MemorySink) {}

    fn print_aside(&mut self, is_aside: bool) {
        self.is_aside = is_aside;
    }

    fn remark<D: Display + Drop>(&mut self, _remark: D) {}

    fn fault(&self) -> Option<FileFault> {
        None
    }
}

/// Runs `lv` with these words over these lines: its status, what it printed, and the files afterwards.
fn run<'a>(
    rt: &(impl Abort + AllocGlobal),
    words: &[&str],
    lines: &'a [u8],
) -> Result<(u8, Vec<u8>, Desk<'a>), Fail> {
    let mut owned = Vec::new(rt.alloc());
    for &word in words {
        owned.push(String::from_str(rt.alloc(), word)?)?;
    }
    let mut desk = Desk {
        alloc: rt.alloc(),
        lines,
        written: Vec::new(rt.alloc()),
        is_open: false,
        is_aside: false,
        failures: 0,
    };
    let mut out: Vec<u8> = Vec::new(rt.alloc());
    let status = lv(rt.alloc(), owned.as_slice(), &mut desk, &mut out);
    Ok((status, out, desk))
}

/// A script pushes a stream and writes a view, whose file is closed when the line ends.
#[test]
fn lines_of_a_script_are_run(rt: HostRuntime) -> Result<(), Fail> {
    let lines = b"feed add stream\nwrite t view\n\npiece add stream 0 0\nundo";
    let (status, printed, desk) = run(&rt, &["run", "config", "-"], lines)?;
    let answers = b"1: schema\n1: batch\n1: end\n2: wrote 504\n5: undone\n";
    assert_eq!(rt; (status, printed.as_slice()), (0, answers.as_slice()));
    assert_eq!(rt; (desk.is_open, desk.is_aside), (false, false));
    assert_eq!(rt; desk.written.as_slice(), SAMPLE.as_slice());
    Ok(())
}

/// Where a script writes a view to standard output, what is printed goes to standard error.
#[test]
fn answers_go_aside(rt: HostRuntime) -> Result<(), Fail> {
    let (status, _, desk) = run(&rt, &["run", "config", "-"], b"undo\nwrite t -")?;
    assert_eq!(rt; (status, desk.is_aside), (1, true));
    let (status, _, desk) = run(&rt, &["recast", "stream", "-"], b"")?;
    assert_eq!(rt; (status, desk.is_aside), (0, true));
    let (status, _, desk) = run(&rt, &["live", "config"], b"write t -\n")?;
    assert_eq!(rt; (status, desk.is_aside), (0, false));
    Ok(())
}

/// Lines that come are answered one by one, with bytes in both directions between them.
#[test]
fn lines_that_come_are_answered(rt: HostRuntime) -> Result<(), Fail> {
    let mut lines: Vec<u8> = Vec::new(rt.alloc());
    lines.extend_from_slice(b"bytes add 504\n")?;
    lines.extend_from_slice(&SAMPLE)?;
    lines.extend_from_slice(b"send t\n# nothing\nno\nbytes add 3\n\n\n\nundo")?;
    let mut wanted: Vec<u8> = Vec::new(rt.alloc());
    wanted.extend_from_slice(b"1: schema\n1: batch\n1: end\n1.\n2: wrote 504\n")?;
    wanted.extend_from_slice(&SAMPLE)?;
    wanted.extend_from_slice(b"2.\n3.\n4: wrong line\n4.\n5: refused 29 AfterEnd\n5.\n")?;
    wanted.extend_from_slice(b"6: undone\n6.\n")?;
    let (status, printed, _) = run(&rt, &["live", "config"], &lines)?;
    assert_eq!(rt; (status, printed.as_slice()), (1, wanted.as_slice()));
    Ok(())
}
