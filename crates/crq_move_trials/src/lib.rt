//! The tests of moves of a table: several helpers, woven, and stopped before an exchange.
#![tactic(auto)]

#[cfg(test)]
mod tests;
