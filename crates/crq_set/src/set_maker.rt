//! What makes sets of events, and keeps what they did.

ghost use Rattle.std.specs.Prelude.{◌≡◌, ◌≤◌, ◌+◌, ◌++◌, ◌∷◌, [], ℕ, List, IfOk, OnOk, OnErr};
ghost use Rattle.crq_base.specs.declared.entry.Entry.{Entry};
ghost use Rattle.crq_base.specs.Sizes.{AreRows, IsTeam};
ghost use Rattle.crq_set.specs.Views.{IsSetup};

use crate::event_set::EventSet;
use crq_base::Memory;
use std::alloc::Global;

/// Makes sets of events, and keeps the histories of those that it closed.
pub trait SetMaker {
    /// The sets that it makes.
    type Set: EventSet;

    /// The greatest number of callers of a set, 1 to 16.
    const MOST: u32;

    ghost MOST: { ℕ };

    ghost team: { IsTeam MOST };

    /// The histories of the sets that it closed, in order.
    ghost closed: { Self → List (List Entry) };

    /// For how many more histories it has room.
    ghost room: { Self → ℕ };

    /// An empty set for this many callers with so many rows each, and all its passes as one. It takes room for one more
    /// closed history. Where memory is refused, the room for histories stays too.
    fn make(
        &mut self,
        alloc: Global,
        workers: u32,
        rows: u32,
    ) -> Result<(Self::Set, <Self::Set as EventSet>::Whole), Memory>
        requires workers { (1 ≤ workers) × (workers ≤ MOST) }
        requires rows { AreRows rows }
        ensures whole { IfOk result (λ made. Self.Set.is_whole made.0 made.1) }
        ensures empty { IfOk result (λ made. Self.Set.history made.1 ≡ []) }
        ensures setup { IfOk result (λ made. IsSetup workers rows (Self.Set.setup made.0)) }
        ensures closed { closed self.new ≡ closed self.old }
        ensures room { OnOk result (room self.new ≡ room self.old + 1) }
        ensures none { OnErr result (room self.new ≡ room self.old) };

    /// Ends a set, and keeps its history behind those that it has. It takes no memory.
    fn close(&mut self, set: Self::Set, whole: <Self::Set as EventSet>::Whole)
        requires whole { Self.Set.is_whole set whole }
        requires room { 1 ≤ room self.old }
        ensures closed { closed self.new ≡ closed self.old ++ (Self.Set.history whole ∷ []) }
        ensures room { room self.new + 1 ≡ room self.old };
}
