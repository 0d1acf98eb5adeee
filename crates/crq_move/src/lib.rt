//! Moving a table's events into a table of another size: each atomic step as a function of its own, and the parts of a
//! move, one atomic step at a time.
//!
//! Any caller may help a move. It opens the heads of the new table, freezes those of the old one, empties their lists, and
//! opens the new table once current is past the pin.
#![tactic(auto)]

mod announcing;
mod bind;
mod empty;
mod ending;
mod finish;
mod freeze;
mod heads;
mod help;
mod names;
mod parts;
mod pin;
mod prepare;
mod reads;
mod steps;

pub use announcing::announce;
pub use bind::{BindEnd, BindOp, BindState};
pub use empty::{MoveOp, MoveState};
pub use ending::{finish_step, for_pin_step, pass_step, pin_load_step, pin_step};
pub use finish::{FinishOp, FinishState};
pub use freeze::{FreezeOp, FreezeState};
pub use help::{HelpEnd, HelpOp, HelpPart};
pub use parts::PartEnd;
pub use pin::{PinOp, PinState};
pub use prepare::{PrepareOp, PrepareState};
pub use steps::{
    announce_step, bind_step, copy_link_step, discard_step, drop_step, freeze_head_step,
    freeze_row_step, head_step, owed_twin_step, pop_step, prepare_step, row_step, twin_step,
    validate_step,
};
