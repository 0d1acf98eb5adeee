//! Lists, the places at which their links stand, and what one step of an operation answers.

use crq_base::Link;

/// A list of a table.
#[derive(Clone, Copy)]
pub struct ListAt {
    /// The generation of its table.
    pub generation: u32,
    /// Its head, numbered over both banks.
    pub head: u32,
}

/// What a take walks.
#[derive(Clone, Copy)]
pub enum Place {
    /// The list of this bucket, up to that bucket's number.
    Bucket(u32),
    /// All lists of the table.
    Search,
}

/// What one step of an operation answers.
#[derive(Clone, Copy, Debug, PartialEq, Eq)]
pub enum Progress<E> {
    /// There is more to do.
    More,
    /// The operation has ended so.
    Done(E),
}

/// Where a link stands.
#[derive(Clone, Copy)]
pub enum Spot {
    /// In a head, numbered over both banks.
    Head(u32),
    /// In a row.
    Row(u32),
}

/// A spot that was passed, and the link that was found there, which is present, or not valid yet.
#[derive(Clone, Copy)]
pub struct Before {
    /// The spot.
    pub spot: Spot,
    /// The link found.
    pub link: Link,
}
