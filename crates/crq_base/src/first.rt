//! Where the counters of a new calendar begin.

ghost use Rattle.std.specs.Prelude.{◌≡◌};
ghost use Rattle.crq_base.specs.Starts.{IsFirst};

/// What a new calendar starts with. A number beyond these bounds would leave its calendar no room to count.
#[derive(Clone, Copy, Debug, PartialEq, Eq)]
pub struct First {
    /// The first epoch of current, at most 2^32 - 64.
    pub epoch: u32,
    /// The first table's generation, from 1 to 2^30 - 2.
    pub generation: u32,
    /// The first epoch of the guards, at most 2^62.
    pub guard: u64,
}

impl First {
    /// The start of a program's calendars: epoch 0, generation 1, guard 0.
    pub fn of_program() -> First
        ensures value { result ≡ record { epoch = 0; generation = 1; guard = 0 } }
        ensures bounds { IsFirst result }
    {
        First {
            epoch: 0,
            generation: 1,
            guard: 0,
        }
    }
}
