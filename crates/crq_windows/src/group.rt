//! What a group of events is.

use crq_sim::Sequence;

/// The events of one object, which stand side by side in the list of a window's events.
#[derive(Clone, Copy, Debug, PartialEq, Eq)]
pub struct Group {
    /// The object, numbered from 1.
    pub object: u32,
    /// The place of its first event.
    pub from: usize,
    /// The place after its last event.
    pub upto: usize,
}

/// The groups of a window, in order of their objects.
pub type Groups = Sequence<Group>;
