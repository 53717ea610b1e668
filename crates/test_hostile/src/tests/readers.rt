//! Files that come in pieces, fail, never end or are too large.

ghost use Rattle.std.specs.Prelude.{◌≤◌, length};

use crate::tests::{SERVER, check_same};
use outcomes::Unwatched;
use pcml_files::{Source, SourceFault, SystemFiles};
use pcml_tool::command;
use std::alloc::{AllocError, Allocator, Global};
use std::fs::{Files, Metadata, OpenFile, OpenOptions};
use std::io;
use std::io::{BufRead, ErrorKind, Read, Seek, SeekFrom, Write};
use std::process::Abort;
use std::sync::Wait;
use std::test::Fail;
use std::thread::Threads;

/// What a file is like.
#[derive(Clone, Copy, Debug, PartialEq, Eq)]
enum Kind {
    /// It has the script, and each read gives three bytes of it at most. Every other read is interrupted.
    InPieces,
    /// After the first bytes of the script it fails.
    FailsWithin,
    /// It has zeros, and so many of them.
    Zeros(u64),
}

/// One of the files, as far as it was read.
#[derive(Drop)]
struct Opened {
    kind: Kind,
    at: u64,
    reads: u64,
}

impl Opened {
    /// The bytes of the script from where the file was read to.
    fn script_left(&self) -> &'static [u8] {
        let at = usize::try_from(self.at).unwrap_or(usize::MAX);
        SERVER.as_bytes().get(at..).unwrap_or(&[])
    }

    fn give(&mut self, bytes: &[u8], buffer: &mut [u8]) -> usize
        ensures { result ≤ length buffer.new }
    {
        let count = bytes.len().min(buffer.len());
        buffer[..count].copy_from_slice(&bytes[..count]);
        self.at = self.at.saturating_add(count as u64);
        count
    }
}

fn unsupported() -> io::Error {
    io::Error::from(ErrorKind::Unsupported)
}

impl Read for Opened {
    fn read(&mut self, buffer: &mut [u8]) -> io::Result<usize> {
        self.reads = self.reads.saturating_add(1);
        match self.kind {
            Kind::InPieces => {
                if self.reads % 2 == 0 {
                    return Err(io::Error::from(ErrorKind::Interrupted));
                }
                let left = self.script_left();
                Ok(self.give(&left[..left.len().min(3)], buffer))
            }
            Kind::FailsWithin => {
                if self.at >= 20 {
                    return Err(io::Error::from(ErrorKind::BrokenPipe));
                }
                let left = self.script_left();
                Ok(self.give(&left[..left.len().min(20)], buffer))
            }
            Kind::Zeros(length) => {
                let left = usize::try_from(length.saturating_sub(self.at)).unwrap_or(usize::MAX);
                let zeros = [0; 4096];
                Ok(self.give(&zeros[..left.min(4096)], buffer))
            }
        }
    }
}

impl Write for Opened {
    fn write(&mut self, _bytes: &[u8]) -> io::Result<usize> {
        Err(unsupported())
    }

    fn flush(&mut self) -> io::Result<()> {
        Ok(())
    }
}

impl Seek for Opened {
    fn seek(&mut self, _to: SeekFrom) -> io::Result<u64> {
        Err(unsupported())
    }
}

impl OpenFile for Opened {
    fn metadata(&self) -> io::Result<Metadata> {
        Err(unsupported())
    }

    fn set_len(&self, _size: u64) -> io::Result<()> {
        Err(unsupported())
    }

    fn sync_all(&self) -> io::Result<()> {
        Err(unsupported())
    }

    fn sync_data(&self) -> io::Result<()> {
        Err(unsupported())
    }
}

/// A file system whose files are told by their names.
#[derive(Drop)]
struct Disk {
    alloc: Global,
}

impl Alloc for Disk {
    type A = Global;

    fn alloc(&self) -> Global {
        self.alloc
    }
}

/// Its standard input has nothing.
impl Input for Disk {
    type Reader = io::Empty;

    fn read_line<A: Allocator + Clone>(&self, line: &mut String<A>) -> io::Result<usize> {
        io::empty().read_line(line)
    }

    fn lines<A: Allocator>(&self, alloc: A) -> io::Lines<io::Empty, A> {
        io::empty().lines(alloc)
    }

    fn reader(&self) -> io::Empty {
        io::empty()
    }
}

impl Files for Disk {
    type File = Opened;

    type Dir = Opened;

    fn open_file(&self, _how: &OpenOptions, path: &str) -> io::Result<Opened> {
        let kind = match path {
            "pieces" => Kind::InPieces,
            "fails" => Kind::FailsWithin,
            "endless" => Kind::Zeros(u64::MAX),
            "largest" => Kind::Zeros(16_777_216),
            "too large" => Kind::Zeros(16_777_217),
            "locked" => return Err(io::Error::from(ErrorKind::PermissionDenied)),
            _ => return Err(io::Error::from(ErrorKind::NotFound)),
        };
        Ok(Opened {
            kind,
            at: 0,
            reads: 0,
        })
    }

    fn open_dir(&self, _path: &str) -> io::Result<Opened> {
        Err(unsupported())
    }

    fn metadata(&self, _path: &str) -> io::Result<Metadata> {
        Err(unsupported())
    }

    fn symlink_metadata(&self, _path: &str) -> io::Result<Metadata> {
        Err(unsupported())
    }

    fn copy(&self, _from: &str, _to: &str) -> io::Result<u64> {
        Err(unsupported())
    }

    fn rename(&self, _from: &str, _to: &str) -> io::Result<()> {
        Err(unsupported())
    }

    fn remove_file(&self, _path: &str) -> io::Result<()> {
        Err(unsupported())
    }

    fn create_dir(&self, _path: &str) -> io::Result<()> {
        Err(unsupported())
    }

    fn remove_dir(&self, _path: &str) -> io::Result<()> {
        Err(unsupported())
    }

    fn remove_dir_all<B: Allocator>(&self, _alloc: B, _path: &str) -> io::Result<()> {
        Err(unsupported())
    }
}

/// Words, and what the program prints and tells of them.
type Asked = (&'static [&'static str], &'static str, &'static str);

/// The first line of a text, with its end.
fn first_line(text: &[u8]) -> &[u8] {
    match text.iter().position(|byte| *byte == b'\n') {
        Some(at) => &text[..=at],
        None => text,
    }
}

/// What the program tells of a request over files, on either stream: on the error stream first.
fn tells<R: Abort + AllocGlobal + Threads + Wait + Sync, S: Source>(
    rt: &R,
    source: &mut S,
    words: &[&str],
    out: &str,
    err: &str,
) -> Result<(), AllocError> {
    let alloc = rt.alloc();
    let mut printed = Vec::with_capacity(alloc, 64)?;
    let mut told = Vec::with_capacity(alloc, 4096)?;
    let status = command(
        rt,
        alloc,
        words,
        source,
        &mut printed,
        &mut told,
        &mut Unwatched,
    );
    let request = words.last().copied().unwrap_or("");
    check_same(rt, first_line(told.as_slice()), err.as_bytes(), request);
    check_same(rt, printed.as_slice(), out.as_bytes(), request);
    check_same(rt, status, u8::from(!err.is_empty()), request);
    Ok(())
}

/// Asks for each of these in turn, over the files of a disk.
fn tells_each<R: Abort + AllocGlobal + Threads + Wait + Sync>(
    rt: &R,
    all: &[Asked],
) -> Result<(), AllocError> {
    let disk = Disk { alloc: rt.alloc() };
    let mut files = SystemFiles::new(&disk);
    for (words, out, err) in all {
        tells(rt, &mut files, words, out, err)?;
    }
    Ok(())
}

const OF_FAILING_FILES: [Asked; 15] = [
    (&["check", "pieces"], "processes 2 channels 3\n", ""),
    (&["check", "-"], "processes 0 channels 0\n", ""),
    (&["run", "-", "--journal", "pieces"], "", "fault 32\n"),
    (&["check", "fails"], "", "fault 31\n"),
    (&["play", "fails"], "", "fault 31\n"),
    (&["run", "fails"], "", "fault 31\n"),
    (&["replay", "pieces", "fails"], "", "fault 31\n"),
    (&["check", "locked"], "", "fault 31\n"),
    (&["play", "locked"], "", "fault 31\n"),
    (&["run", "locked"], "", "fault 31\n"),
    (&["replay", "pieces", "locked"], "", "fault 31\n"),
    (&["check", "none"], "", "fault 31\n"),
    (&["play", "none"], "", "fault 31\n"),
    (&["run", "none"], "", "fault 31\n"),
    (&["replay", "pieces", "none"], "", "fault 31\n"),
];

#[test]
fn files_that_fail(rt: HostRuntime) -> Result<(), AllocError> {
    tells_each(&rt, &OF_FAILING_FILES)
}

/// The length is told before the first line, which is no line of a schedule or a journal. A script that is too
/// long comes first.
const OF_LARGE_FILES: [Asked; 12] = [
    (&["play", "largest"], "", "fault 22 line 1\n"),
    (&["replay", "pieces", "largest"], "", "fault 21 line 1\n"),
    (&["play", "too large"], "", "fault 23\n"),
    (&["replay", "pieces", "too large"], "", "fault 23\n"),
    (&["check", "too large"], "", "fault 16\n"),
    (&["run", "too large"], "", "fault 16\n"),
    (&["replay", "too large", "too large"], "", "fault 16\n"),
    (&["play", "endless"], "", "fault 23\n"),
    (&["replay", "pieces", "endless"], "", "fault 23\n"),
    (&["check", "endless"], "", "fault 16\n"),
    (&["run", "endless"], "", "fault 16\n"),
    (&["replay", "endless", "endless"], "", "fault 16\n"),
];

#[test]
fn files_that_are_too_large(rt: HostRuntime) -> Result<(), AllocError> {
    tells_each(&rt, &OF_LARGE_FILES)
}

/// Of a file of the system that never ends no more is held than of one that is too large.
#[test]
fn files_of_the_system(rt: HostRuntime) -> Result<(), Fail> {
    let mut files = SystemFiles::new(&rt);
    match files.read("/dev/zero") {
        Ok(bytes) => assert_eq!(rt; bytes.len(), 16_777_217),
        Err(fault) => assert_eq!(rt; fault, SourceFault::Memory),
    }
    tells(&rt, &mut files, &["play", "/dev/zero"], "", "fault 23\n")?;
    tells(&rt, &mut files, &["check", "/dev/zero"], "", "fault 16\n")?;
    for name in ["/", "/dev/zero/none", "/proc/self/mem"] {
        tells(&rt, &mut files, &["check", name], "", "fault 31\n")?;
    }
    tells(
        &rt,
        &mut files,
        &["check", "/dev/null"],
        "processes 0 channels 0\n",
        "",
    )?;
    Ok(())
}
