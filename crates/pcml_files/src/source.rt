//! Where the program's files come from.

ghost use Rattle.std.specs.Prelude.{◌≡◌, ◌≢◌, ◌⊎◌, ℕ, List, IfOk, IfErr, OnOk, IfSome, IsOk, take};
ghost use Rattle.std.specs.IoError.{error_kind};
ghost use Rattle.std.specs.declared.io.ErrorKind.TheVariants.{OutOfMemory};
ghost use Rattle.pcml_files.specs.Files.{IsRead};
ghost use Rattle.pcml_files.specs.declared.source.SourceFault.TheVariants.{Memory, Unread, Unwritten};

use std::alloc::Global;
use std::io::{Error, ErrorKind, Read};

/// The most bytes of a journal or a schedule.
pub const MOST_BYTES: usize = 16_777_216;

/// Why a file was not read, or not written.
#[derive(Clone, Copy, Debug, PartialEq, Eq)]
pub enum SourceFault {
    Memory,
    Unread,
    Unwritten,
}

impl From<Error> for SourceFault {
    ghost from_gives = { λ error fault. (error_kind error ≡ OutOfMemory → fault ≡ Memory)
        × (error_kind error ≢ OutOfMemory → fault ≡ Unread) };

    fn from(error: Error) -> SourceFault {
        match error.kind() {
            ErrorKind::OutOfMemory => SourceFault::Memory,
            _ => SourceFault::Unread,
        }
    }
}

/// Gives files by their names, and keeps journals.
pub trait Source {
    // A file of this name holds these bytes. A source that says nothing of its files leaves it open.
    ghost holds: { Self → List ℕ → List ℕ → Type 0 } = { λ _ _ _. Unit {0} };

    /// The whole file. One of more than 16,777,216 bytes is too large for all that is read: of such a
    /// file a beginning will do that is too large as well, as its first 16,777,217 bytes. Reading a file
    /// changes none.
    fn read(&mut self, name: &str) -> Result<Vec<u8>, SourceFault>
        ensures file { IfOk result (λ bytes. IsRead (holds self.old name.now) bytes.items) }
        ensures fault { IfErr result (λ fault. fault ≢ Unwritten) }
        ensures kept { (name bytes : List ℕ) → holds self.new name bytes → holds self.old name bytes };

    /// Whether the file can be read again: a pipe cannot, and might keep whoever opens it waiting. Where it cannot be
    /// read at all, the reason, for a person. A source that knows none says that it can.
    fn can_be_read_again(&self, _name: &str) -> Result<bool, Error> {
        Ok(true)
    }

    /// Makes the bytes the whole file of this name, in the place of what it held. Where that fails, each
    /// file holds what it held. A source that keeps no files refuses.
    fn store(&mut self, _name: &str, _text: &[u8]) -> Result<(), SourceFault>
        ensures stored { OnOk result (holds self.new _name.now _text.now) }
        ensures fault { IfErr result (λ fault. fault ≢ Unread) }
        ensures kept { (file bytes : List ℕ) → holds self.new file bytes → holds self.old file bytes ⊎ (IsOk result × (file ≡ _name.now) × (bytes ≡ _text.now)) }
    {
        Err(SourceFault::Unwritten)
    }
}

/// What the reader gives until it ends, and no more than 16,777,217 bytes of it.
pub(crate) fn read_beginning<R: Read + Drop>(
    alloc: Global,
    reader: R,
) -> Result<Vec<u8>, SourceFault>
    ensures read { IfOk result (λ bytes. IfSome (R.remaining reader) (λ all. bytes.items ≡ take 16777217 all)) }
    ensures fault { IfErr result (λ fault. fault ≢ Unwritten) }
{
    let mut bytes = Vec::new(alloc);
    let mut beginning = reader.take(MOST_BYTES as u64 + 1);
    beginning.read_to_end(&mut bytes)?;
    Ok(bytes)
}
