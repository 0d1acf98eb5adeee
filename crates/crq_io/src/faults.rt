//! What all devices share: the count of faults, and calls that fail by their number.

ghost use Rattle.std.specs.Prelude.{◌≡◌, ◌↔◌, IsTrue, IfOk};
ghost use Rattle.crq_io.specs.Faults.{one_more, IsListed};

use crq_base::Memory;
use std::alloc::Global;

/// The next value of a count, which stands still at 2^64 - 1.
pub(crate) fn one_more(count: u64) -> u64
    ensures { result ≡ one_more count }
{
    if count == u64::MAX { count } else { count + 1 }
}

/// Whether a call's number is in the list.
pub(crate) fn is_listed(numbers: &[u64], number: u64) -> bool
    ensures { IsTrue result ↔ IsListed numbers.now number }
{
    numbers.contains(&number)
}

/// A list of call numbers to keep.
pub(crate) fn list_of(alloc: Global, numbers: &[u64]) -> Result<Vec<u64>, Memory>
    ensures { IfOk result (λ list. list.items ≡ numbers.now) }
{
    Ok(Vec::from_slice(alloc, numbers)?)
}
