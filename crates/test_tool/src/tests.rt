use outcomes::Unwatched;
use pcml_files::{Source, SourceFault};
use pcml_texts::replay_laws;
use pcml_tool::{Fault, MeetFault, command, play_laws};
use std::alloc::{AllocError, Global};
use std::fmt::Debug;
use std::io;
use std::io::Write;
use std::process::Abort;
use std::sync::Wait;
use std::thread::Threads;

mod explaining;
mod gates;
mod scripts;
mod workers;

/// One file, by its name.
#[derive(Drop)]
struct OneFile<'a> {
    alloc: Global,
    text: &'a [u8],
}

impl Source for OneFile<'_> {
    fn read(&mut self, name: &str) -> Result<Vec<u8>, SourceFault> {
        match name {
            "file" => match Vec::from_slice(self.alloc, self.text) {
                Ok(bytes) => Ok(bytes),
                Err(_) => Err(SourceFault::Memory),
            },
            "memory" => Err(SourceFault::Memory),
            _ => Err(SourceFault::Unread),
        }
    }
}

/// Takes this many bytes, and then no more.
#[derive(Drop)]
struct Narrow {
    room: usize,
}

impl Write for Narrow {
    fn write(&mut self, bytes: &[u8]) -> io::Result<usize> {
        let taken = bytes.len().min(self.room);
        self.room -= taken;
        Ok(taken)
    }

    fn flush(&mut self) -> io::Result<()> {
        Ok(())
    }
}

/// What a run of the program gave.
#[derive(Drop)]
struct Outcome {
    status: u8,
    out: Vec<u8>,
    err: Vec<u8>,
}

/// Where memory runs out, the run has to tell just that.
fn run<R: AllocGlobal + Threads + Wait + Sync>(
    rt: &R,
    words: &[&str],
    text: &[u8],
) -> Result<Outcome, Fault> {
    let alloc = rt.alloc();
    let mut source = OneFile { alloc, text };
    let mut out = Vec::with_capacity(alloc, 256)?;
    let mut err = Vec::with_capacity(alloc, 4096)?;
    let status = command(
        rt,
        alloc,
        words,
        &mut source,
        &mut out,
        &mut err,
        &mut Unwatched,
    );
    if status == 1 && out.is_empty() && err.as_slice() == b"fault 1\n".as_slice() {
        return Err(Fault::Memory);
    }
    // a thread that lacks memory is not started
    if status == 1 && out.is_empty() && err.as_slice() == b"fault 6\n".as_slice() {
        return Err(Fault::Meet(MeetFault::NoThread));
    }
    Ok(Outcome { status, out, err })
}

/// Stops the test where the values differ, and prints both.
fn check_same<T: PartialEq + Debug + Drop>(rt: &impl Abort, found: T, wanted: T, what: &str) {
    assert!(rt; found == wanted, "{what}: {found:?} is not {wanted:?}");
}

#[test]
fn laws_hold() {
    play_laws();
    replay_laws();
}

#[test]
fn tells_want_of_memory(rt: HostRuntime) -> Result<(), Fault> {
    let lacking = run(&rt, &["play", "memory"], b"");
    assert!(rt; matches!(lacking, Err(Fault::Memory)));
    Ok(())
}

/// Where the output takes only so many bytes of the line, that is told.
fn check_narrow<R: Abort + AllocGlobal + Threads + Wait + Sync>(
    rt: &R,
    room: usize,
) -> Result<(), Fault> {
    let alloc = rt.alloc();
    let mut err = Vec::with_capacity(alloc, 64)?;
    let status = command(
        rt,
        alloc,
        &["meet", "42"],
        &mut OneFile { alloc, text: b"" },
        &mut Narrow { room },
        &mut err,
        &mut Unwatched,
    );
    if status == 1 && err.as_slice() == b"fault 1\n".as_slice() {
        return Err(Fault::Memory);
    }
    check_same(rt, status, 1, "the status");
    check_same(
        rt,
        err.as_slice(),
        b"fault 32\n".as_slice(),
        "what was told",
    );
    Ok(())
}

#[test]
fn tells_unwritten_output(rt: HostRuntime) -> Result<(), Fault> {
    for room in 0..24 {
        check_narrow(&rt, room)?;
    }
    Ok(())
}
