//! A test of `engine`: each call once, with ample memory.
#![tactic(auto)]

#[cfg(test)]
mod tests;
