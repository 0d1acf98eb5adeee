//! Passes, guards and epochs: each atomic step on guards and retired rows as a function of its own, and the operations
//! made of them.
//!
//! A guard is on between two loads of the epoch: the one that is announced, and one after the announcement. A row that
//! was cut out of its list is retired with an epoch that was loaded after the cut, and is taken again two epochs later.
//! The scheme is after Fraser, "Practical lock-freedom" (2004).
#![tactic(auto)]

mod dealing;
mod gathering;
mod kinds;
mod own;
mod places;
mod recover;
mod steps;
mod tick;

pub use crq_base::{Holder, Stamp};
pub use crq_rule::{Owes, Pass, Seating, Table};
pub use dealing::{passes, wake_all};
pub use gathering::{gather_step, span_step};
pub use kinds::{
    Change, Does, Turn, TurnsBy, exchange_as, exchange_seated, exchange_turning, load_as,
    load_seated, load_turning, store_as, store_seated,
};
pub use own::{Own, OwnOp};
pub use places::Passes;
pub use recover::{Recover, RecoverOp};
pub use steps::{
    claim_step, confirm_step, enter_step, epoch_step, leave_step, look_step, read_step,
    recovery_step, retire_step, scan_step, tick_step, write_step,
};
pub use tick::{Tick, TickOp};
