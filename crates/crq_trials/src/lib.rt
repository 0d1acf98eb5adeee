//! The tests of the crates below the host and the queue, over what those crates hand out: one module for each crate.
#![tactic(auto)]

#[cfg(test)]
mod tests;
