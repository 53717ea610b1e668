//! Tests of `pcml_tool`: the command, on texts in memory.
#![tactic(auto)]

#[cfg(test)]
mod tests;
