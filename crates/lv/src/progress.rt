//! The progress of a long run.

use std::io;
use std::io::{Eprint, Read};
use std::rt::Clock;
use std::time::{Duration, Instant};

/// After this many seconds progress is reported first.
const PATIENCE: u64 = 2;

/// It is reported again after this many milliseconds.
const PAUSE: u64 = 500;

/// Reports on a terminal, by a line of its own that is removed at the end, how many bytes of a file were read.
pub struct Progress<'a, R: Clock + Eprint> {
    runtime: &'a R,
    /// How many bytes the file has, where that is known.
    total: Option<u64>,
    done: u64,
    begun: Instant,
    /// When it is reported next, counted from the beginning.
    next: Duration,
    is_reported: bool,
}

impl<'a, R: Clock + Eprint> Progress<'a, R> {
    /// The progress of a run that begins now, where the time is known.
    pub fn begin(runtime: &'a R, total: Option<u64>) -> Option<Self> {
        let begun = Instant::now(runtime).ok()?;
        Some(Progress {
            runtime,
            total,
            done: 0,
            begun,
            next: Duration::from_secs(PATIENCE),
            is_reported: false,
        })
    }

    /// Counts bytes that were read, and reports them when it is time.
    fn add(&mut self, len: usize) {
        self.done = self.done.saturating_add(len as u64);
        let Ok(passed) = self.begun.elapsed(self.runtime) else {
            return;
        };
        if passed >= self.next {
            self.next = passed.saturating_add(Duration::from_millis(PAUSE));
            self.is_reported = true;
            self.tell();
        }
    }

    fn tell(&self) {
        let done = self.done;
        // It doesn't matter whether it can be reported.
        let _ = match self.total {
            Some(total) => eprint!(self.runtime; "\r{done} of {total} bytes\x1b[K"),
            None => eprint!(self.runtime; "\r{done} bytes\x1b[K"),
        };
    }
}

impl<R: Clock + Eprint> Drop for Progress<'_, R> {
    fn drop(self) {
        if self.is_reported {
            let _ = eprint!(self.runtime; "\r\x1b[K");
        }
        let Progress {
            runtime: _,
            total: _,
            done: _,
            begun: _,
            next: _,
            is_reported: _,
        } = self;
    }
}

/// A file that is read, with a report of its progress where that is wanted.
#[derive(Drop)]
pub struct Tracked<'a, R: Clock + Eprint, S> {
    pub source: S,
    pub progress: Option<Progress<'a, R>>,
}

impl<R: Clock + Eprint, S: Read> Read for Tracked<'_, R, S> {
    fn read(&mut self, room: &mut [u8]) -> io::Result<usize> {
        let len = self.source.read(room)?;
        if let Some(progress) = &mut self.progress {
            progress.add(len);
        }
        Ok(len)
    }
}
