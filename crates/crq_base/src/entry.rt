//! Entries of a set's history.

ghost use Rattle.std.specs.Prelude.{◌≡◌};
ghost use Rattle.crq_base.specs.Entries.{caller_of};

use crate::event::Event;

/// One entry of the history of a set of events. The first number is that of the caller who made it.
///
/// A take answers for the events that were settled when it began, which its Begin tells: after Shavit and Lotan, "Skiplist-based concurrent priority
/// queues" (2000).
#[derive(Clone, Copy, Debug, PartialEq, Eq)]
pub enum Entry {
    /// A put or a take began.
    Begin(u32),
    /// The event was put.
    Put(u32, Event),
    /// The event, which this caller put, counts for each take that begins from here on.
    Settled(u32, Event),
    /// The event was taken.
    Take(u32, Event),
    /// A take found no event with a time below this limit.
    Miss(u32, u64),
    /// The set got a new table of 2^log buckets, each 2^shift ticks wide: caller, log, shift.
    Table(u32, u32, u32),
}

impl Entry {
    /// The number of the caller whose entry this is.
    pub fn caller(&self) -> u32
        ensures { result ≡ caller_of self.now }
    {
        match self {
            Entry::Begin(caller)
            | Entry::Put(caller, _)
            | Entry::Settled(caller, _)
            | Entry::Take(caller, _)
            | Entry::Miss(caller, _)
            | Entry::Table(caller, _, _) => *caller,
        }
    }
}
