//! Tests of `meet_queues`: offers that passes put into lanes and take, and rows that ends put and get, on one
//! thread and on several.
#![tactic(auto)]

#[cfg(test)]
mod tests;
