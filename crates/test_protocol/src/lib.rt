//! Tests of `protocol`: worked schedules, worlds at the ends of their ranges, worlds that go on from openings, and merges of lists of
//! steps, compared with a second reading of the rules.
#![tactic(auto)]

#[cfg(test)]
mod later_lists;
#[cfg(test)]
mod merge_lists;
#[cfg(test)]
mod merges;
#[cfg(test)]
mod openings;
#[cfg(test)]
mod plain_row;
#[cfg(test)]
mod second_reading;
#[cfg(test)]
mod tests;
