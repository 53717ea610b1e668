//! Outputs that take little, fail or are interrupted.

use crate::tests::{LINES, SERVER, check_same};
use outcomes::Unwatched;
use pcml_files::{Source, SourceFault};
use pcml_tool::command;
use std::alloc::{AllocError, Global};
use std::io;
use std::io::{ErrorKind, Write};
use std::process::Abort;
use std::sync::Wait;
use std::test::Fail;
use std::thread::Threads;

/// The server's script and its journal.
#[derive(Drop)]
struct ServerFiles {
    alloc: Global,
}

impl ServerFiles {
    fn text(&self, name: &str) -> Result<Vec<u8>, AllocError> {
        let mut text = Vec::new(self.alloc);
        if name == "script" {
            text.extend_from_slice(SERVER.as_bytes())?;
        } else {
            for line in LINES {
                text.extend_from_slice(line.as_bytes())?;
            }
        }
        Ok(text)
    }
}

impl Source for ServerFiles {
    fn read(&mut self, name: &str) -> Result<Vec<u8>, SourceFault> {
        match self.text(name) {
            Ok(text) => Ok(text),
            Err(_) => Err(SourceFault::Memory),
        }
    }
}

/// How an output ends, once it took what it takes.
#[derive(Clone, Copy, Debug, PartialEq, Eq)]
enum End {
    Fails,
    TakesNothing,
    /// It takes all, but fails where it is to let go of it.
    FailsToFlush,
}

/// Takes a few bytes at a time, until it has `room` bytes. Each write is first interrupted so often.
#[derive(Drop)]
struct Hostile {
    taken: Vec<u8>,
    at_once: usize,
    room: usize,
    end: End,
    interruptions: usize,
    interrupted: usize,
}

impl Write for Hostile {
    fn write(&mut self, bytes: &[u8]) -> io::Result<usize> {
        if self.interrupted < self.interruptions {
            self.interrupted += 1;
            return Err(io::Error::from(ErrorKind::Interrupted));
        }
        self.interrupted = 0;
        let count = bytes.len().min(self.at_once).min(self.room);
        if count == 0 && self.end == End::Fails {
            return Err(io::Error::from(ErrorKind::BrokenPipe));
        }
        self.taken.extend_from_slice(&bytes[..count])?;
        self.room -= count;
        Ok(count)
    }

    fn flush(&mut self) -> io::Result<()> {
        match self.end {
            End::FailsToFlush => Err(io::Error::from(ErrorKind::BrokenPipe)),
            _ => Ok(()),
        }
    }
}

const EXPECTED: &str = "client ended 9\nserver ended 2\nlawful 3 maximal\n";

/// Replays the server's journal onto the output: the status, and what was told of faults.
fn replays_onto<R: AllocGlobal + Threads + Wait + Sync>(
    rt: &R,
    out: &mut Hostile,
) -> Result<(u8, Vec<u8>), AllocError> {
    let alloc = rt.alloc();
    let mut err = Vec::with_capacity(alloc, 64)?;
    let words = ["replay", "script", "journal"];
    let status = command(
        rt,
        alloc,
        &words,
        &mut ServerFiles { alloc },
        out,
        &mut err,
        &mut Unwatched,
    );
    Ok((status, err))
}

fn output(alloc: Global, at_once: usize, room: usize, end: End) -> Result<Hostile, AllocError> {
    Ok(Hostile {
        taken: Vec::with_capacity(alloc, 64)?,
        at_once,
        room,
        end,
        interruptions: 0,
        interrupted: 0,
    })
}

/// The output gets the whole text, and the program tells no fault.
fn takes_all<R: Abort + AllocGlobal + Threads + Wait + Sync>(
    rt: &R,
    out: &mut Hostile,
) -> Result<(), AllocError> {
    let (status, err) = replays_onto(rt, out)?;
    check_same(
        rt,
        out.taken.as_slice(),
        EXPECTED.as_bytes(),
        "what is taken",
    );
    check_same(rt, err.as_slice(), b"".as_slice(), "what is told");
    check_same(rt, status, 0, "the status");
    Ok(())
}

/// The output gets the first bytes of the text, and the program tells the fault of the output.
fn takes_a_beginning<R: Abort + AllocGlobal + Threads + Wait + Sync>(
    rt: &R,
    out: &mut Hostile,
    length: usize,
) -> Result<(), AllocError> {
    let (status, err) = replays_onto(rt, out)?;
    let beginning = EXPECTED.as_bytes().get(..length).unwrap_or(&[]);
    check_same(rt, out.taken.as_slice(), beginning, "what is taken");
    check_same(rt, err.as_slice(), b"fault 32\n".as_slice(), "what is told");
    check_same(rt, status, 1, "the status");
    Ok(())
}

#[test]
fn short_writes(rt: HostRuntime) -> Result<(), Fail> {
    for at_once in [1, 2, 3, 7, 1000] {
        let mut out = output(rt.alloc(), at_once, 1000, End::Fails)?;
        takes_all(&rt, &mut out)?;
    }
    Ok(())
}

#[test]
fn interrupted_writes(rt: HostRuntime) -> Result<(), Fail> {
    for interruptions in [1, 2, 100] {
        let mut out = output(rt.alloc(), 5, 1000, End::Fails)?;
        out.interruptions = interruptions;
        takes_all(&rt, &mut out)?;
    }
    let mut out = output(rt.alloc(), 5, 12, End::Fails)?;
    out.interruptions = 3;
    takes_a_beginning(&rt, &mut out, 12)?;
    Ok(())
}

/// The output fails, or takes nothing, at each place of the text in turn.
#[test]
fn failing_writes(rt: HostRuntime) -> Result<(), Fail> {
    for room in 0..EXPECTED.len() {
        for end in [End::Fails, End::TakesNothing] {
            for at_once in [1, 1000] {
                let mut out = output(rt.alloc(), at_once, room, end)?;
                takes_a_beginning(&rt, &mut out, room)?;
            }
        }
    }
    let mut out = output(rt.alloc(), 1000, 1000, End::FailsToFlush)?;
    takes_a_beginning(&rt, &mut out, EXPECTED.len())?;
    Ok(())
}
