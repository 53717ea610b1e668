//! Tests of the whole on what may go wrong around it: outputs and files that fail, journals that are kept, and little
//! stack.
#![tactic(auto)]

#[cfg(test)]
mod tests;
