//! What the calls of an event set answer.

use crate::event::Event;
use crate::holder::Holder;

/// How a put ends.
#[derive(Clone, Copy, Debug, PartialEq, Eq)]
pub enum PutEnd {
    /// The event was put, and counts for each take that begins from here on.
    Settled,
    /// The event was put, and is still to be settled by its caller.
    Owed,
}

/// How a take ends.
#[derive(Clone, Copy, Debug, PartialEq, Eq)]
pub enum TakeEnd {
    /// This event was taken, and found so.
    Taken(Event, Route),
    /// There was no event below the limit.
    Missed,
}

/// How the event of a take was found.
#[derive(Clone, Copy, Debug, PartialEq, Eq)]
pub enum Route {
    /// In the bucket of current, which was found at this tick.
    Bucket(u32),
    /// By a search of all buckets, after current was raised by so many.
    Search(u32),
}

/// Why a call with a budget gave up.
#[derive(Clone, Copy, Debug, PartialEq, Eq)]
pub enum Refusal {
    /// The budget of exchanges is used up, and the answer needs one more.
    Again {
        /// How many exchanges were made.
        turns: u32,
    },
    /// A row was needed, none is free, and this caller keeps the epoch, so that none gets free.
    Held(Holder),
    /// A row was needed, and none is free, though the epoch has risen three times.
    Rows,
    /// The epoch of current has no room left.
    Epochs,
}

/// Why a call that waits gave up.
#[derive(Clone, Copy, Debug, PartialEq, Eq)]
pub enum Short {
    /// A row was needed, and none is free.
    Rows,
    /// The epoch of current has no room left.
    Epochs,
    /// There is no memory.
    Memory,
}

/// What the announcement of a new table answers.
#[derive(Clone, Copy, Debug, PartialEq, Eq)]
pub enum Announce {
    /// The table of this generation was announced.
    Set(u32),
    /// A table of this generation was announced before.
    Moving(u32),
    /// There is no generation left.
    Tables,
    /// The epoch of current has no room left.
    Epochs,
    /// There is no memory.
    Memory,
}
