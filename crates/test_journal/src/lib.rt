//! Tests of what a script's processes do and of what is told of their runs: machines (`thread`), sequential
//! runs (`journal_replay`) and journals (`journal`), on scripts that are read from text.
#![tactic(auto)]

#[cfg(test)]
mod tests;
