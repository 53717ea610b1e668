//! The files of a case file: those that it made so far, and else those beside it.

use pcml_files::{Source, SourceFault, SystemFiles};
use std::alloc::{AllocError, Global};
use std::fs::Files;
use std::io;

/// A file that was made.
#[derive(Drop)]
struct Made {
    name: String,
    text: Vec<u8>,
}

/// The files that were made, and behind them those of the system. Of two of one name the later one counts.
#[derive(Drop)]
pub(crate) struct Shelf<'a, R> {
    alloc: Global,
    made: Vec<Made>,
    others: SystemFiles<'a, R>,
}

impl<'a, R: Files + Input + AllocGlobal> Shelf<'a, R> {
    pub(crate) fn new(rt: &'a R) -> Shelf<'a, R> {
        Shelf {
            alloc: rt.alloc(),
            made: Vec::new(rt.alloc()),
            others: SystemFiles::new(rt),
        }
    }

    /// Makes the bytes, so many times, the whole file of this name.
    pub(crate) fn make(&mut self, name: &str, text: &[u8], times: usize) -> Result<(), AllocError> {
        let name = String::from_str(self.alloc, name)?;
        let mut whole = Vec::new(self.alloc);
        for _ in 0..times {
            whole.extend_from_slice(text)?;
        }
        self.made.push(Made { name, text: whole })?;
        Ok(())
    }

    /// Puts the bytes, so many times, behind the file that was made last, which has to have this name.
    pub(crate) fn append(
        &mut self,
        name: &str,
        text: &[u8],
        times: usize,
    ) -> Result<(), AllocError> {
        if let Some(file) = self.made.last_mut() {
            if file.name.as_str() == name {
                for _ in 0..times {
                    file.text.extend_from_slice(text)?;
                }
            }
        }
        Ok(())
    }

    /// What the file holds that was made under this name last, as text.
    pub(crate) fn text_of(&self, name: &str) -> Result<String, AllocError> {
        let found = self.find(name).unwrap_or(b"(there is none)\n");
        String::from_str(self.alloc, str::from_utf8(found).unwrap_or("(no text)\n"))
    }

    /// The bytes of the file that was made under this name last; none where there is none.
    pub(crate) fn bytes_of(&self, name: &str) -> Result<Vec<u8>, AllocError> {
        Vec::from_slice(self.alloc, self.find(name).unwrap_or(b""))
    }

    /// The file that was made under this name last.
    fn find(&self, name: &str) -> Option<&[u8]> {
        let mut found = None;
        for file in &self.made {
            if file.name.as_str() == name {
                found = Some(file.text.as_slice());
            }
        }
        found
    }
}

impl<R: Files + Input + AllocGlobal> Source for Shelf<'_, R> {
    fn read(&mut self, name: &str) -> Result<Vec<u8>, SourceFault> {
        let Some(found) = self.find(name) else {
            return self.others.read(name);
        };
        match Vec::from_slice(self.alloc, found) {
            Ok(text) => Ok(text),
            Err(_) => Err(SourceFault::Memory),
        }
    }

    fn can_be_read_again(&self, name: &str) -> io::Result<bool> {
        match self.find(name) {
            Some(_) => Ok(true),
            None => self.others.can_be_read_again(name),
        }
    }

    /// There are no folders to keep a file in.
    fn store(&mut self, name: &str, text: &[u8]) -> Result<(), SourceFault> {
        if name.contains('/') {
            return Err(SourceFault::Unwritten);
        }
        match self.make(name, text, 1) {
            Ok(()) => Ok(()),
            Err(_) => Err(SourceFault::Memory),
        }
    }
}
