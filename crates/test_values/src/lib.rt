//! Tests of the parts below threads and workers: words, event trees, and the texts of schedules,
//! scripts and journals.
#![tactic(auto)]

#[cfg(test)]
mod tests;
