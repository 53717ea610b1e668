//! Scripts that are read and written.

use crate::hoard::Hoard;
use crate::sweep::{Answer, Call, judged};
use anyhow::Result;
use script::{Script, ScriptFault, parse};
use script_writer::write;
use std::alloc::{AllocError, Global};

/// To read a text that has a fault, or is a script with this canonical text.
#[derive(Drop)]
pub(crate) struct Reading<'a> {
    pub(crate) alloc: Global,
    pub(crate) text: &'a str,
    pub(crate) expected: Result<String, ScriptFault>,
}

impl<'a> Reading<'a> {
    pub(crate) fn new(alloc: Global, text: &'a str) -> Result<Reading<'a>, AllocError> {
        let expected = match parse(alloc, text.as_bytes()) {
            Ok(script) => Ok(write(alloc, &script)?),
            Err(fault) => Err(fault),
        };
        Ok(Reading {
            alloc,
            text,
            expected,
        })
    }

    /// Whether the answer is the expected one.
    fn is_expected(&self, read: &Result<Script, ScriptFault>) -> Result<bool, AllocError> {
        match (read, &self.expected) {
            (Ok(script), Ok(canonical)) => {
                let text = write(self.alloc, script)?;
                Ok(text.as_str() == canonical.as_str())
            }
            (Err(fault), Err(expected)) => Ok(*fault == *expected),
            _ => Ok(false),
        }
    }
}

impl Call for Reading<'_> {
    fn attempt(&mut self, hoard: &mut Hoard, amount: usize) -> Result<Answer> {
        hoard.leave(amount)?;
        let read = parse(self.alloc, self.text.as_bytes());
        hoard.release();
        if matches!(&read, Err(ScriptFault::Memory)) {
            return Ok(Answer::Refused);
        }
        Ok(judged(self.is_expected(&read)?))
    }
}

/// To write a script.
#[derive(Drop)]
pub(crate) struct Writing<'a> {
    pub(crate) alloc: Global,
    pub(crate) script: &'a Script,
    pub(crate) expected: String,
}

impl Call for Writing<'_> {
    fn attempt(&mut self, hoard: &mut Hoard, amount: usize) -> Result<Answer> {
        hoard.leave(amount)?;
        let written = write(self.alloc, self.script);
        hoard.release();
        let Ok(text) = written else {
            return Ok(Answer::Refused);
        };
        Ok(judged(text.as_str() == self.expected.as_str()))
    }
}
