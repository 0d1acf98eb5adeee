//! Simulation models as JSON texts.
#![tactic(auto)]

mod draft;
mod drafts;
mod fault;
mod flaw;
mod header;
mod member;
mod members;
mod objects;
mod read;
mod resolved;
mod starts;
mod text;
mod word;
mod wording;

pub use fault::{FaultNumber, ModelFault, Place, Subject};
pub use member::Member;
pub use read::read_model;
pub use text::model_text;
pub use word::Word;
pub use wording::ShownBytes;
