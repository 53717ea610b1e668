//! What is called round each turn of a thread.

/// Is called by the workers round each turn of a thread, with the worker's number and the thread's. A run
/// waits for a gate that does not return, and so do the rows that the worker has kept for its later turns.
pub trait Gate {
    /// The worker is about to begin a turn of the thread.
    fn before(&self, worker: u8, thread: u8);

    /// The turn has ended, by a fault too. The row that it opened and that row's partner, where it committed
    /// them, go on when this has returned. A thread's first turn ends before its first row is searched for.
    fn after(&self, worker: u8, thread: u8);
}
