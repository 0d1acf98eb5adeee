//! The top calls: from the words of a command line and the bytes of a file to the bytes that are printed.
#![tactic(auto)]

mod calls;
mod command;
mod ending;
mod explanation;
mod forms;
mod host;
mod line;
mod output;
mod performing;
mod running;
mod texts;

pub use calls::{inspect, inspect_to_ending, run, run_to_ending};
pub use command::Call;
pub use ending::{Ending, Status};
pub use explanation::{Explanation, explanation_of};
pub use forms::{Misfit, Parameter};
pub use host::on_host;
pub use performing::{perform, program};
