//! Windows of a run, for whoever runs them: where a window ends, and its events by their objects.
#![tactic(auto)]

mod edges;
mod group;
mod grouping;
mod laws;

pub use crq_base::Memory;
pub use edges::edge;
pub use group::{Group, Groups};
pub use grouping::group_by_object;
pub use laws::group_law;
