//! Files that are fetched whole.

ghost use Rattle.std.specs.Prelude.{◌≡◌, ℕ, ◌<◌, ◌≤◌, List, length, Option, Some, None, IfOk, IsErrOf, IsOk, ◌⊎◌};
ghost use Rattle.crq_io.specs.Faults.{Rose, NoFault};
ghost use Rattle.crq_io.specs.Told.{IsTold};

use std::alloc::Global;

/// Why a file was not fetched.
#[derive(Clone, Copy, Debug, PartialEq, Eq)]
pub enum Fetch {
    /// The device failed, and counted it.
    Failed,
    /// The file has more bytes than the limit.
    Long,
    /// There was no memory for the bytes.
    Memory,
    /// The device tells its names, and this one isn't there.
    NoFile,
}

/// Files that are fetched by their names, with a count of faults that never falls.
pub trait Files {
    /// What is told of a name: `None` where nothing is told, `Some None` where no file has it, else the bytes under it.
    ghost found: { Self → List ℕ → Option (Option (List ℕ)) };

    /// How often the device failed, at most 2^64 - 1.
    ghost faults: { Self → ℕ };

    /// Fetches the bytes of a file that has at most `limit` of them.
    fn fetch(&mut self, alloc: Global, name: &str, limit: u64) -> Result<Vec<u8>, Fetch>
        // The bytes are the file's, where they are told, and never more than the limit.
        ensures ok { IfOk result (λ bytes. (length bytes.items ≤ limit)
            × IsTold (found self.old name.now) bytes.items) }

        // Whatever is answered, what is told of each name stays, and the count doesn't fall.
        ensures kept { (other : List ℕ) → found self.new other ≡ found self.old other }
        ensures later { faults self.old ≤ faults self.new }

        // A failure was counted in this call.
        ensures failed { IsErrOf result Fetch.Failed → Rose (faults self.old) (faults self.new) }

        // Where the bytes are told, Long comes exactly where they are too many and no fault was
        // counted. It never comes of a name that is told to be absent.
        ensures long { IsErrOf result Fetch.Long → (bytes : List ℕ)
            → found self.old name.now ≡ Some (Some bytes)
            → (limit < length bytes) × (faults self.new ≡ faults self.old) }
        ensures too_long { (bytes : List ℕ) → found self.old name.now ≡ Some (Some bytes)
            → limit < length bytes → NoFault (faults self.old) (faults self.new)
            → IsErrOf result Fetch.Long }
        ensures none_is_long { IsErrOf result Fetch.Long → found self.old name.now ≡ Some None → ⊥ }

        // NoFile comes only of a name that is told to be absent, and exactly there where no fault
        // was counted.
        ensures no_file { IsErrOf result Fetch.NoFile
            → (found self.old name.now ≡ Some None) × (faults self.new ≡ faults self.old) }
        ensures absent { found self.old name.now ≡ Some None
            → NoFault (faults self.old) (faults self.new) → IsErrOf result Fetch.NoFile }

        // A told file within the limit is fetched, unless a fault was counted or memory is short.
        ensures fits { (bytes : List ℕ) → found self.old name.now ≡ Some (Some bytes)
            → length bytes ≤ limit → NoFault (faults self.old) (faults self.new)
            → IsOk result ⊎ IsErrOf result Fetch.Memory };
}
