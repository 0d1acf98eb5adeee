//! The rule of the shared table: where each word lies, what each caller knows, and the invariant that every atomic
//! step of every caller keeps.
//!
//! The table holds the rows of a lock-free calendar queue. Rows are given again by epochs, after Fraser, "Practical
//! lock-freedom" (2004): a row that was cut out of its list is taken again only once no guard can cover it.
#![tactic(auto)]

mod debts;
mod indices;
mod laws;
mod layout;
mod opening;
mod pass;
mod rule;
mod view;

pub use crq_base::{First, StepKind};
pub use debts::{CopyDebt, CutDebt, Debts, SettleDebt};
pub use laws::{
    claim_law, current_law, gather_law, guard_law, move_law, opening_law, parts_law, scarcity_law,
    seat_law, stale_law, step_law, witness_law,
};
pub use layout::{BANK, Layout, Start};
pub use opening::{Opened, open_table};
pub use pass::{Owes, Pass, Rest, Seating, Table};
pub use rule::{FirstPart, JoinedParts, TableLaw};
pub use view::{
    Base, Caller, CutRow, Deal, Found, Guard, Help, Made, Position, Sight, Stand, Sweep, Tick,
    Told, View, Walk, Wrote,
};
