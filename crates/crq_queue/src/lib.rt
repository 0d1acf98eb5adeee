//! The lock-free calendar queue.
#![tactic(auto)]

mod calendar;
mod calls;
mod dealing;
mod event_set;
mod finding;
mod gathering;
mod maker;
mod runs;
mod set_maker;
mod settling;
mod taking;
mod waiting;

pub use calendar::{Calendar, Closed, Whole};
pub use crq_base::{Holder, Memory, PutEnd, Refusal, Route, Short, TakeEnd};
pub use crq_rows::{Pass, Passes};
pub use crq_rule::First;
pub use maker::CalendarMaker;
