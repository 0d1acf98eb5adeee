//! What a windowed run of a model came to.

use crate::sequence::Sequence;
use crate::traces::Traces;

/// A table of the calendar: 2 to the power of `log` buckets, each 2 to the power of `shift` ticks wide.
#[derive(Clone, Copy, Debug, PartialEq, Eq)]
pub struct Size {
    pub shift: u32,
    pub log: u32,
}

/// The tables that were opened after the first one, in order.
pub type Sizes = Sequence<Size>;

/// The traces of a run, how many windows it took, the greatest number of pending events at the beginning or end of a window, and the tables that it opened.
#[derive(Debug, Drop)]
pub struct Outcome {
    pub traces: Traces,
    pub windows: u32,
    pub peak: u32,
    pub tables: Sizes,
}
