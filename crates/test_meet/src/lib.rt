//! Tests of `meet`: rows that find each other in lanes, on one thread and on several.
#![tactic(auto)]

#[cfg(test)]
mod tests;
