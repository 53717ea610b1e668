//! The cells as calls of C. `lib/include/pcml_cells.h` declares them.
//!
//! A call takes what its pass keeps out of the handle, tests, calls the table and puts it back. Its contract says so of what
//! the handle keeps, and that the answer is the number of what the call came to.
#![tactic(auto)]

mod commits;
mod handle;
mod lives;
mod numbers;
mod parts;
mod rows;
mod tables;
mod telling;
