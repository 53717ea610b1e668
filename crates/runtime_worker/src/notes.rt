//! The nacks of the rows that the threads opened last.

use crate::nacks::Nacks;
use crossbeam_utils::CachePadded;
use std::alloc::{AllocError, Global};
use std::sync::atomic::{AtomicBool, Ordering};
use std::sync::{Mutex, Wait};

/// The nacks of the row that a thread opened last. Whoever commits the row reads them before it is put into the
/// ready queues: until then the thread does not go on, so they are the row's.
#[derive(Drop)]
struct Note {
    nacks: Mutex<Nacks>,
    has_nacks: AtomicBool,
}

/// A note for each thread, on lines of the cache of its own.
#[derive(Drop)]
pub struct Notes {
    notes: Vec<CachePadded<Note>>,
}

impl Notes {
    /// So many notes, of rows with no nacks.
    pub fn new(alloc: Global, threads: usize) -> Result<Notes, AllocError> {
        let mut notes = Vec::with_capacity(alloc, threads)?;
        for _ in 0..threads {
            notes.push(CachePadded::new(Note {
                nacks: Mutex::new(Nacks::none()),
                has_nacks: AtomicBool::new(false),
            }))?;
        }
        Ok(Notes { notes })
    }

    /// Notes the nacks of the thread's next row, before it is opened.
    #[inline(always)]
    pub(crate) fn note<R: Wait>(&self, rt: &R, thread: u8, nacks: Nacks) {
        let Some(note) = self.notes.get(usize::from(thread)) else {
            return;
        };
        let has_nacks = !nacks.is_empty();
        if has_nacks {
            *note.nacks.lock(rt) = nacks;
        }
        // It seldom changes, and a look is cheaper than a write.
        if note.has_nacks.load(Ordering::SeqCst) != has_nacks {
            note.has_nacks.store(has_nacks, Ordering::SeqCst);
        }
    }

    /// Whether the row that the thread opened last has nacks. No lock is taken.
    pub(crate) fn has_nacks(&self, thread: u8) -> bool {
        match self.notes.get(usize::from(thread)) {
            Some(note) => note.has_nacks.load(Ordering::SeqCst),
            None => false,
        }
    }

    /// The nacks of the row that the thread opened last. Where it has none no lock is taken.
    pub(crate) fn nacks<R: Wait>(&self, rt: &R, thread: u8) -> Nacks {
        let Some(note) = self.notes.get(usize::from(thread)) else {
            return Nacks::none();
        };
        if !note.has_nacks.load(Ordering::SeqCst) {
            return Nacks::none();
        }
        *note.nacks.lock(rt)
    }
}
