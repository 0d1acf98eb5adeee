//! What all crates of the pending event set share: events and the order of their keys, the packed words of the shared
//! table, the kinds of its steps, and the entries of a set's history.
#![tactic(auto)]

mod answers;
mod entry;
mod event;
mod first;
mod holder;
mod kinds;
mod legality;
mod limits;
mod memory;
mod words;

pub use answers::{Announce, PutEnd, Refusal, Route, Short, TakeEnd};
pub use entry::Entry;
pub use event::{Event, order_law};
pub use first::First;
pub use holder::Holder;
pub use kinds::StepKind;
pub use legality::{Fault, judge};
pub use limits::{MOST_ROWS, MOST_WORKERS};
pub use memory::Memory;
pub use words::{Control, Current, Link, Mark, Pin, Stamp, spelling_law, word_law};
