//! The grammar of scripts, as what can be written, apart from how it is read.
//!
//! The definitions stand in `specs`: what is written with its tokens (`Written`), how deep it lies
//! (`Depths`), and what it means (`Meaning`). No code runs here, and nothing that reads is named.
#![tactic(auto)]
