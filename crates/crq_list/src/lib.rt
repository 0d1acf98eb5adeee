//! A sorted list of marked links: inserting, taking and cutting, one atomic step at a time.
//!
//! A node is taken by marking its own link, and is dead from then on; whoever passes it later cuts it out of the list. The
//! scheme is after Harris, "A pragmatic implementation of non-blocking linked-lists" (2001).
#![tactic(auto)]

mod cut;
mod insert;
mod parts;
mod seek;
mod steps;
mod stretch;
mod take;

pub use cut::{CutEnd, CutOp};
pub use insert::{CopyOf, InsertEnd, InsertOp};
pub use parts::{ListAt, Place, Progress};
pub use steps::{begin_step, control_step, head_of, miss_step};
pub use take::{Candidate, MarkEnd, TakeOp};
