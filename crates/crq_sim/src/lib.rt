//! Simulation models, what their objects do at an event, and the run of a model over one event list.
#![tactic(auto)]

mod draws;
mod generated;
mod kind;
mod laws;
mod model;
mod name;
mod outcome;
mod pending;
mod reaction;
mod run;
mod sends;
mod sequence;
mod serial_run;
mod targets;
mod traces;

pub use crq_base::Memory;
pub use draws::draw;
pub use generated::generate;
pub use laws::{
    bound_law, count_law, end_law, example_law, next_window_law, number_law, one_window_law,
    order_law, peak_law, reaction_law, run_law, serial_stop_law, simulation_law, stop_law,
    window_data_law, window_law,
};
pub use model::{
    Behaviour, BehaviourName, MOST_OBJECTS, MOST_STARTS, Model, Object, Objects, Start, Starts,
};
pub use name::Name;
pub use outcome::{Outcome, Size, Sizes};
pub use reaction::{ObjectState, react};
pub use run::{MOST_EVENTS, starts_before, states_before, traces_by};
pub use sends::Sends;
pub use sequence::Sequence;
pub use serial_run::{SimEnd, serial};
pub use targets::Targets;
pub use traces::{ObjectTrace, Step, Steps, Traces};
