//! Models driven in lookahead windows over any set of events, by several workers at once.
#![tactic(auto)]

mod course;
mod crew;
mod drive_end;
mod driving;
mod gate;
mod merging;
mod putting;
mod running;
mod taking;
mod window;
mod window_run;
mod worker;

pub use drive_end::DriveEnd;
pub use driving::drive;
pub use gate::{Gate, OpenGate, Phase};
