//! When the workers are done, and how those that are idle sleep.

use crossbeam_utils::sync::{EventCount, Key};
use std::sync::atomic::{AtomicBool, AtomicUsize, Ordering};

/// How many workers are active, and whether all are to stop. It is written only where a worker becomes idle or
/// busy, and not with every turn.
///
/// When the last active worker becomes idle, no row will come. A worker becomes idle only after it found no
/// row: it had kept none, and its own deque was empty. Only it puts rows in either, so both are empty still. Whoever
/// put a row into the injector last found the injector empty afterwards. And a turn is under way, or a row is kept
/// for a later turn, only in a worker that is active: so no turn will put a row in. A thread that is started has
/// its first turn within that of the thread that starts it, so of its first row, too, no other worker hears but by
/// the lanes and the queues.
///
/// An idle worker sleeps until it is called. It announces that first, and then looks once more: so it finds what was put
/// before, and who puts a row later finds the announcement, and calls. No clause says that no call is lost. A lost one
/// would leave a row to the worker that put it, which comes to it in its turn; only the last call, by which all are to
/// stop, has nobody in its place.
#[derive(Drop)]
pub struct Activity {
    workers: usize,
    active: AtomicUsize,
    stopped: AtomicBool,
    calls: EventCount,
}

impl Activity {
    /// So many workers, all active.
    pub fn new(workers: usize) -> Activity {
        Activity {
            workers,
            active: AtomicUsize::new(workers),
            stopped: AtomicBool::new(false),
            calls: EventCount::new(),
        }
    }

    /// An active worker becomes idle. The answer is whether all are to stop, as they are from when the last
    /// one becomes idle.
    pub(crate) fn rest(&self) -> bool {
        if self.active.fetch_sub(1, Ordering::SeqCst) <= 1 {
            self.stop();
        }
        self.is_stopped()
    }

    /// Whether some worker is idle at the moment.
    #[inline(always)]
    pub(crate) fn has_idle(&self) -> bool {
        self.active.load(Ordering::SeqCst) < self.workers
    }

    /// An idle worker becomes active, before it looks for a row.
    pub(crate) fn wake(&self) {
        self.active.fetch_add(1, Ordering::SeqCst);
    }

    /// A worker announces that it is about to sleep, by a wait on the key. It has to look behind this once more.
    pub(crate) fn announce(&self) -> Key<'_> {
        self.calls.prepare_wait()
    }

    /// Behind a row that was put into the ready queues: one of those that sleep is called, if any does.
    #[inline(always)]
    pub(crate) fn call(&self) {
        self.calls.notify_one();
    }

    /// All workers are to stop, also those that sleep.
    pub fn stop(&self) {
        self.stopped.store(true, Ordering::SeqCst);
        self.calls.notify_all();
    }

    /// Whether all workers are to stop.
    pub(crate) fn is_stopped(&self) -> bool {
        self.stopped.load(Ordering::SeqCst)
    }
}
