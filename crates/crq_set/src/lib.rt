//! Sets of pending events that several callers share, what makes them, and a plain set for one caller.
#![tactic(auto)]

mod event_set;
mod plain_maker;
mod plain_set;
mod set_maker;

pub use crq_base::{Entry, Event, First, Memory, Route, Short, TakeEnd};
pub use event_set::EventSet;
pub use plain_maker::PlainMaker;
pub use plain_set::{PlainPass, PlainPasses, PlainSet, PlainWhole};
pub use set_maker::SetMaker;
