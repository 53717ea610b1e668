//! How far a search is, on a terminal.

use outcomes::Watch;
use std::io::Write;
use std::time::{Clock, Duration, Instant};

/// Between two looks at the clock so many configurations are looked at.
const LOOKS: u32 = 1024;

/// The bytes of which a person is told how many states they have room for.
const GIGABYTE: usize = 1_000_000_000;

/// What takes a terminal to the beginning of its line, and clears it.
const CLEARED: &str = "\r\x1b[K";

/// Tells a person at a terminal what a state takes, and once a second how far a search is, in one line that changes.
/// Without a stream nothing is told.
#[derive(Drop)]
pub(crate) struct Progress<'a, R: Clock, E: Write> {
    clock: &'a R,
    err: Option<E>,
    looks: u32,
    told: Option<Instant>,
    is_shown: bool,
}

impl<'a, R: Clock, E: Write> Progress<'a, R, E> {
    pub(crate) fn new(clock: &'a R, err: Option<E>) -> Progress<'a, R, E> {
        Progress {
            clock,
            err,
            looks: 0,
            told: None,
            is_shown: false,
        }
    }

    /// Whether a second has gone by since the last time that it was told, or since the first look.
    fn is_due(&mut self) -> bool {
        let Ok(now) = Instant::now(self.clock) else {
            return false;
        };
        match self.told {
            Some(told) if now.duration_since(told) < Duration::from_secs(1) => false,
            Some(_) => {
                self.told = Some(now);
                true
            }
            None => {
                self.told = Some(now);
                false
            }
        }
    }
}

impl<'a, R: Clock, E: Write> Watch for Progress<'a, R, E> {
    fn begin(&mut self, least: usize, most: usize) {
        if let Some(err) = &mut self.err {
            let few = GIGABYTE / most.max(1);
            let many = GIGABYTE / least.max(1);
            let _ = writeln!(
                err,
                "a state takes {least} to {most} bytes: 1 GB has room for {few} to {many}"
            );
        }
    }

    fn look(&mut self, seen: usize, open: usize) {
        self.looks = self.looks.wrapping_add(1) % LOOKS;
        if self.looks != 1 || self.err.is_none() || !self.is_due() {
            return;
        }
        if let Some(err) = &mut self.err {
            let _ = write!(err, "{CLEARED}{seen} states seen, {open} open");
            let _ = err.flush();
            self.is_shown = true;
        }
    }

    fn end(&mut self) {
        if let (Some(err), true) = (&mut self.err, self.is_shown) {
            let _ = write!(err, "{CLEARED}");
            self.is_shown = false;
        }
    }
}
