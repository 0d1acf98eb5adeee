//! Why a model isn't driven to its end.

use crq_base::Memory;
use std::alloc::AllocError;

/// Why a drive has no outcome.
#[derive(Clone, Copy, Debug, PartialEq, Eq)]
pub enum DriveEnd {
    /// Memory was refused.
    Memory,
    /// The model has more events than the cap allows: the first that is too many is in the window with this number.
    Events(u32),
    /// After the window with this number, or 0 before the first one, so many events were pending that the rows are too few:
    /// two for each, and two.
    Rows(u32, u32),
}

impl From<AllocError> for DriveEnd {
    ghost use Rattle.std.specs.Prelude.{◌≡◌};
    ghost use Rattle.crq_host.specs.declared.drive_end.DriveEnd.TheVariants.{Memory as NoMemory};

    ghost from_gives = { λ _ e. e ≡ NoMemory };

    fn from(_error: AllocError) -> DriveEnd {
        DriveEnd::Memory
    }
}

impl From<Memory> for DriveEnd {
    ghost use Rattle.std.specs.Prelude.{◌≡◌};
    ghost use Rattle.crq_host.specs.declared.drive_end.DriveEnd.TheVariants.{Memory as NoMemory};

    ghost from_gives = { λ _ e. e ≡ NoMemory };

    fn from(_error: Memory) -> DriveEnd {
        DriveEnd::Memory
    }
}
