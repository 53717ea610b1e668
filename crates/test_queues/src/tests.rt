//! What the calls give when they run: on one thread, and on passes and ends in threads of their own.

mod lane_alone;
mod lane_threads;
mod lanes;
mod others;
mod queues;
mod ready_alone;
mod ready_threads;
