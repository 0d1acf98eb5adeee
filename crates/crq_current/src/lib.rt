//! Current, the position at which takes begin: each atomic step on it as a function of its own.
#![tactic(auto)]

mod steps;

pub use steps::{
    EPOCHS_END, current_step, next_position, owed_position, owed_step, raise_step, settle_step,
};
