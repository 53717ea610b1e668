//! The files that the process sees.

ghost use Rattle.std.specs.Prelude.{◌≢◌, IfErr};
ghost use Rattle.pcml_files.specs.declared.source.SourceFault.TheVariants.{Unread};

use crate::place::{Identity, Place, place_of, unwritten};
use crate::source::{Source, SourceFault, read_beginning};
use std::alloc::AllocError;
use std::fs::{Files, Metadata, OpenFile, OpenOptions, Permissions};
use std::io::{ErrorKind, Read, Write};
use std::os::unix::fs::{MetadataExt, OpenOptionsExt, PermissionsExt, chown};
use std::{fs, io};

/// The name under which the process's standard input is read.
const STANDARD_INPUT: &str = "-";

/// What the system calls the process's standard streams, the input first.
const STREAMS: [&str; 3] = ["/proc/self/fd/0", "/proc/self/fd/1", "/proc/self/fd/2"];

/// The mode of a file that its owner alone may read and write.
const PRIVATE: u32 = 0o600;

/// The part of a mode that says who may read, write and run a file.
const RIGHTS: u32 = 0o777;

/// The files that the process sees. What never ends, as a device or a pipe may, is read no further than a
/// file that is too large. `-` is the standard input.
#[derive(Drop)]
pub struct SystemFiles<'a, R> {
    rt: &'a R,
    read: Vec<Identity>,
}

impl<'a, R: AllocGlobal> SystemFiles<'a, R> {
    pub fn new(rt: &'a R) -> SystemFiles<'a, R> {
        SystemFiles {
            rt,
            read: Vec::new(rt.alloc()),
        }
    }
}

/// Whether a standard stream of the process is this file.
fn is_streamed<R: Files>(rt: &R, file: Identity) -> bool {
    for stream in STREAMS {
        if let Ok(found) = fs::metadata(rt, stream) {
            if Identity::of(&found) == file {
                return true;
            }
        }
    }
    false
}

/// The name of a new file in the folder of another.
fn part_name<R: AllocGlobal>(rt: &R, name: &str, number: u32) -> Result<String, AllocError> {
    match name.rsplit_once('/') {
        Some((folder, _)) => format!(in rt.alloc(); "{folder}/pcml.{number}.part"),
        None => format!(in rt.alloc(); "pcml.{number}.part"),
    }
}

/// A new file in the folder of a place, with its name: the first `pcml.N.part` that is free, so what
/// processes left behind that were killed stands in nobody's way. Where it is to take the place of a file,
/// nobody else may read it yet.
fn new_part<R: Files + AllocGlobal>(rt: &R, place: &Place) -> Result<(String, R::File), SourceFault>
    ensures { IfErr result (λ fault. fault ≢ Unread) }
{
    let mut how = OpenOptions::new();
    how.write(true).create_new(true);
    if place.old.is_some() {
        how.mode(PRIVATE);
    }
    for number in 0..u32::MAX {
        let Ok(part) = part_name(rt, place.name.as_str(), number) else {
            return Err(SourceFault::Memory);
        };
        match how.open(rt, part.as_str()) {
            Ok(file) => return Ok((part, file)),
            Err(error) if error.kind() == ErrorKind::AlreadyExists => {}
            Err(error) => return Err(unwritten(error)),
        }
    }
    Err(SourceFault::Unwritten)
}

/// Gives a new file the owner, the group and the rights of the one whose place it takes. Who may not give
/// files away keeps it, in the old group if he is of that.
fn inherit<R: Files>(rt: &R, part: &str, file: &R::File, old: &Metadata) -> io::Result<()> {
    let new = file.metadata()?;
    if (new.uid(), new.gid()) != (old.uid(), old.gid())
        && chown(rt, part, Some(old.uid()), Some(old.gid())).is_err()
    {
        let _ = chown(rt, part, None, Some(old.gid()));
    }
    if new.mode() & RIGHTS != old.mode() & RIGHTS {
        file.set_permissions(Permissions::from_mode(old.mode() & RIGHTS))?;
    }
    Ok(())
}

/// Writes the bytes to the new file, onto the disk, and lets it take its place.
fn fill<R: Files>(rt: &R, part: &str, file: R::File, place: &Place, text: &[u8]) -> io::Result<()> {
    let mut file = file;
    file.write_all(text)?;
    file.flush()?;
    if let Some(old) = &place.old {
        inherit(rt, part, &file, old)?;
    }
    file.sync_all()?;
    fs::rename(rt, part, place.name.as_str())
}

impl<R: Files + Input + AllocGlobal> SystemFiles<'_, R> {
    /// Remembers a file that was read.
    fn note(&mut self, found: io::Result<Metadata>) -> Result<(), AllocError> {
        if let Ok(found) = found {
            self.read.push(Identity::of(&found))?;
        }
        Ok(())
    }

    /// Whether the file at the place was read, or is one that the process's own streams go to: whoever
    /// named it did not mean to lose it.
    fn is_in_use(&self, place: &Place) -> bool {
        match &place.old {
            Some(old) => {
                let old = Identity::of(old);
                self.read.contains(&old) || is_streamed(self.rt, old)
            }
            None => false,
        }
    }
}

impl<R: Files + Input + AllocGlobal> Source for SystemFiles<'_, R> {
    fn read(&mut self, name: &str) -> Result<Vec<u8>, SourceFault> {
        let alloc = self.rt.alloc();
        if name == STANDARD_INPUT {
            return read_beginning(alloc, self.rt.reader());
        }
        let file = fs::open(self.rt, name)?;
        if self.note(file.metadata()).is_err() {
            return Err(SourceFault::Memory);
        }
        read_beginning(alloc, file)
    }

    fn can_be_read_again(&self, name: &str) -> io::Result<bool> {
        if name == STANDARD_INPUT {
            return Ok(false);
        }
        let found = fs::metadata(self.rt, name)?;
        if !found.is_file() && !found.is_dir() {
            return Ok(false);
        }
        let mut file = fs::open(self.rt, name)?;
        let mut byte = [0u8; 1];
        file.read(&mut byte)?;
        Ok(true)
    }

    /// The bytes go into a new file beside it, which takes the name at the end, and is removed where that
    /// fails. Where the name is a link, it is the file behind it whose place is taken, and the link stays.
    /// What is there and is no regular file, as a device or a folder, stays, and it is refused; so is a file
    /// that may not be written, that was read, or that a standard stream goes to.
    fn store(&mut self, name: &str, text: &[u8]) -> Result<(), SourceFault> {
        let place = place_of(self.rt, name)?;
        if self.is_in_use(&place) {
            return Err(SourceFault::Unwritten);
        }
        let (part, file) = new_part(self.rt, &place)?;
        match fill(self.rt, part.as_str(), file, &place, text) {
            Ok(()) => Ok(()),
            Err(error) => {
                let _ = fs::remove_file(self.rt, part.as_str());
                Err(unwritten(error))
            }
        }
    }
}
