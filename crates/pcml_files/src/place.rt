//! Where on the system's disks a journal may be kept.

ghost use Rattle.std.specs.Prelude.{◌≢◌, IfErr};
ghost use Rattle.std.specs.Option.{ForSome};
ghost use Rattle.std.specs.Fs.{file_type, IsFile};
ghost use Rattle.pcml_files.specs.declared.source.SourceFault.TheVariants.{Unread};

use crate::source::SourceFault;
use std::fs::{Files, Metadata, OpenOptions};
use std::io::ErrorKind;
use std::os::unix::fs::MetadataExt;
use std::{fs, io};

/// A file of the system, by whatever name it is reached.
#[derive(Clone, Copy, Debug, PartialEq, Eq)]
pub(crate) struct Identity {
    device: u64,
    number: u64,
}

impl Identity {
    pub(crate) fn of(found: &Metadata) -> Identity {
        Identity {
            device: found.dev(),
            number: found.ino(),
        }
    }
}

/// A name that no file has, or that of a regular file, and not of a link to one.
#[derive(Drop)]
pub(crate) struct Place {
    pub(crate) name: String,
    pub(crate) old: Option<Metadata>,
    ghost regular: { ForSome old (λ found. IsFile (file_type found)) },
}

/// What a failure of writing means.
pub(crate) fn unwritten(error: io::Error) -> SourceFault
    ensures { result ≢ Unread }
{
    match error.kind() {
        ErrorKind::OutOfMemory => SourceFault::Memory,
        _ => SourceFault::Unwritten,
    }
}

/// The place of the file that is found under a name. What is no regular file is refused, and so is a file
/// that the process may not write.
fn place_of_file<R: Files>(rt: &R, name: String, found: Metadata) -> Result<Place, SourceFault>
    ensures { IfErr result (λ fault. fault ≢ Unread) }
{
    if !found.is_file() {
        return Err(SourceFault::Unwritten);
    }
    if let Err(error) = OpenOptions::new().write(true).open(rt, name.as_str()) {
        return Err(unwritten(error));
    }
    Ok(Place {
        name,
        old: Some(found),
    })
}

/// The place of the file that a link leads to in the end, by that file's own name. What leads elsewhere, as
/// to a pipe, or to a file that has no name any more, is refused.
fn place_behind<R: Files + AllocGlobal>(rt: &R, link: &str) -> Result<Place, SourceFault>
    ensures { IfErr result (λ fault. fault ≢ Unread) }
{
    let led = fs::metadata(rt, link).map_err(unwritten)?;
    let name = fs::canonicalize(rt, link).map_err(unwritten)?.into_string();
    let found = fs::symlink_metadata(rt, name.as_str()).map_err(unwritten)?;
    if Identity::of(&found) != Identity::of(&led) {
        return Err(SourceFault::Unwritten);
    }
    place_of_file(rt, name, found)
}

/// The place that a name stands for: its own, or where it is a link that of the file behind it.
pub(crate) fn place_of<R: Files + AllocGlobal>(rt: &R, name: &str) -> Result<Place, SourceFault>
    ensures { IfErr result (λ fault. fault ≢ Unread) }
{
    let found = match fs::symlink_metadata(rt, name) {
        Ok(found) if found.is_symlink() => return place_behind(rt, name),
        Ok(found) => Some(found),
        Err(error) if error.kind() == ErrorKind::NotFound => None,
        Err(error) => return Err(unwritten(error)),
    };
    let Ok(name) = String::from_str(rt.alloc(), name) else {
        return Err(SourceFault::Memory);
    };
    match found {
        Some(found) => place_of_file(rt, name, found),
        None => Ok(Place { name, old: None }),
    }
}
