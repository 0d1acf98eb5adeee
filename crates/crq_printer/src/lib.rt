//! Traces and summaries of runs as text, and traces back from it.
#![tactic(auto)]

mod fields;
mod kinds;
mod lines;
mod parts;
mod printing;
mod reading;
mod summary;

pub use printing::trace_text;
pub use reading::{TraceFault, read_traces};
pub use summary::summary_text;
