//! `pcml`: the program of `pcml_tool`, over the files, words and streams of the process.
#![tactic(auto)]

mod progress;

use crate::progress::Progress;
use pcml_files::SystemFiles;
use pcml_tool::{BAD_WORDS, Fault, command, tell};
use std::alloc::{AllocError, Global};
use std::io::{ErrorKind, IsTerminal, Write};
use std::process::ExitCode;
use std::rt::{Env, Files};
use std::sync::Wait;
use std::thread::{Builder, Threads};
use std::time::Clock;
use std::{env, io, thread};

/// The bytes of stack for which a script may be as deep as its limit lets it.
const STACK: usize = 1 << 20;

/// So many bytes of memory that no limit on them is near.
const AMPLE: usize = 64 << 20;

/// Runs on the words that the process was given. It fails where they lack memory or are no text.
fn run<
    R: Env + Files + Input + Print + AllocGlobal + Threads + Wait + Clock + Sync,
    E: Write,
    P: Write + Drop,
>(rt: &R, err: &mut E, person: Option<P>) -> io::Result<u8> {
    let words: Vec<String> = env::args(rt)?.skip(1).collect(rt.alloc())?;
    let words: Vec<&str> = words.iter().map(|word| word.as_str()).collect(rt.alloc())?;
    let mut files = SystemFiles::new(rt);
    let mut out = io::writer(rt);
    let mut watch = Progress::new(rt, person);
    let status = command(
        rt,
        rt.alloc(),
        words.as_slice(),
        &mut files,
        &mut out,
        err,
        &mut watch,
    );
    Ok(status)
}

/// Runs, and tells why where that fails. It answers the status.
fn ended<
    R: Env + Files + Input + Print + AllocGlobal + Threads + Wait + Clock + Sync,
    E: Print + Write + IsTerminal + Copy,
>(rt: &R, errors: &E) -> u8 {
    let mut err = io::writer(errors);
    let person = if errors.is_terminal() {
        Some(*errors)
    } else {
        None
    };
    match run(rt, &mut err, person) {
        Ok(status) => status,
        Err(error) if error.kind() == ErrorKind::OutOfMemory => tell(&mut err, Fault::Memory),
        Err(_) => {
            let _ = writeln!(err, "error: a word is no text");
            BAD_WORDS
        }
    }
}

/// Whether the system gives so many bytes.
fn ask_for(alloc: Global, bytes: usize) -> Result<(), AllocError> {
    let _room: Vec<u8> = Vec::with_capacity(alloc, bytes)?;
    Ok(())
}

/// Where a limit on memory is near, it runs on a thread whose stack is asked for before it starts: the first
/// thread's grows as it is used, and a process that gets no more of it is killed. Where no thread can be had
/// either, the first one has to do.
fn main(rt: HostRuntime) -> ExitCode {
    let errors = rt.stderr();
    if ask_for(rt.alloc(), AMPLE).is_ok() {
        return ExitCode::from(ended(&rt, &errors));
    }
    if ask_for(rt.alloc(), STACK).is_err() {
        return ExitCode::from(tell(&mut io::writer(&errors), Fault::Memory));
    }
    let status = thread::scope(thread::scope_env(), &rt, |scope| -> u8 {
        match Builder::new()
            .stack_size(STACK)
            .spawn_scoped(scope, || ended(&rt, &errors))
        {
            Ok(handle) => handle.join(&rt),
            Err(_) => ended(&rt, &errors),
        }
    });
    ExitCode::from(status)
}
