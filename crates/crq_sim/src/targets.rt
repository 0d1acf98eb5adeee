//! The objects that a fan sends to.

ghost use Rattle.std.specs.Prelude.{◌≡◌, ◌<◌, ◌≤◌, length, vec_len};

use std::marker;

/// The numbers of 1 to 4 objects, in the order in which they are sent to.
#[derive(Debug, Drop)]
pub struct Targets {
    objects: Vec<u32>,
}

impl marker::Model for Targets {
    ghost use Rattle.std.specs.Prelude.{List, ℕ, ◌<◌, ◌≤◌, length};

    ghost Value = { List ℕ };

    ghost view = { λ t. t.objects.items };

    ghost invariant = { λ t. (0 < length t.objects.items) × (length t.objects.items ≤ 4) };
}

impl Targets {
    /// The targets of a vector, which takes no memory.
    pub fn from_vec(objects: Vec<u32>) -> Targets
        requires some { 0 < vec_len objects }
        requires few { vec_len objects ≤ 4 }
        ensures { result ≡ objects.items }
    {
        Targets { objects }
    }

    /// The targets in order.
    pub fn as_slice(&self) -> &[u32]
        ensures value { result.now ≡ self.now }
        ensures some { 0 < length result.now }
        ensures few { length result.now ≤ 4 }
    {
        self.objects.as_slice()
    }
}
