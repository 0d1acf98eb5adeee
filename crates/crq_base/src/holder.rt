//! What keeps the epoch of the guards where it is.

/// What keeps the epoch of the guards from rising, so that no retired row gets ripe.
#[derive(Clone, Copy, Debug, PartialEq, Eq)]
pub enum Holder {
    /// The caller with this number announced this epoch, which lies below the epoch word.
    Seat(u32, u64),
    /// The epoch word stands at its last value, 2^62.
    Last,
}
