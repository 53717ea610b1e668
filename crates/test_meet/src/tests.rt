//! What the calls give when they run: queues, searches, lanes that many rows pass, wakings, and threads that
//! search at once.

mod acts;
mod lanes;
mod queues;
mod scans;
mod searches;
mod spare;
mod table;
mod threads;
mod wakings;
