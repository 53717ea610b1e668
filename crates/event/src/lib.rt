//! Event trees: what a sync offers, and what stands round each of its base events.
#![tactic(auto)]
