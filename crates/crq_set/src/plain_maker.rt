//! What makes plain sets, and keeps their histories.

ghost use Rattle.std.specs.Prelude.{◌≡◌, ◌≤◌, ◌+◌, ◌++◌, ◌∷◌, [], List, IfSome, IfNone, vec_len, vec_capacity};
ghost use Rattle.crq_base.specs.declared.entry.Entry.{Entry};

use crate::plain_set::{PlainSet, PlainWhole};
use crate::set_maker::SetMaker;
use crq_base::{Entry, Memory};
use std::alloc::Global;

/// Makes plain sets, one caller each, and keeps the history of each set that it closed.
#[derive(Drop)]
pub struct PlainMaker {
    histories: Vec<Vec<Entry>>,
    free: usize,
    ghost fits: { vec_len histories + free ≤ vec_capacity histories },
}

impl PlainMaker {
    /// A maker that has closed no set and has room for no history. It allocates nothing.
    pub fn new(alloc: Global) -> PlainMaker
        ensures closed { ⟦<PlainMaker as SetMaker>⟧.closed result ≡ [] }
        ensures room { ⟦<PlainMaker as SetMaker>⟧.room result ≡ 0 }
    {
        PlainMaker {
            histories: Vec::new(alloc),
            free: 0,
        }
    }

    /// The history of the set that it closed last, oldest entry first, and None exactly where it has closed none.
    pub fn last(&self) -> Option<&[Entry]>
        ensures last { IfSome result (λ h. (front : List (List Entry)) × (⟦<PlainMaker as SetMaker>⟧.closed self.now ≡ front ++ h.now ∷ [])) }
        ensures none { IfNone result (⟦<PlainMaker as SetMaker>⟧.closed self.now ≡ []) }
    {
        Some(self.histories.last()?.as_slice())
    }
}

impl SetMaker for PlainMaker {
    ghost use Rattle.std.specs.Prelude.{map};
    ghost use Rattle.crq_set.specs.Plain.{one_is_a_team};

    type Set = PlainSet;

    const MOST: u32 = 1;

    ghost MOST = { 1 };

    ghost team = { one_is_a_team };

    ghost closed = { λ m. map (λ h. h.items) m.histories.items };

    ghost room = { λ m. m.free };

    fn make(
        &mut self,
        alloc: Global,
        _workers: u32,
        rows: u32,
    ) -> Result<(PlainSet, PlainWhole), Memory> {
        self.histories.reserve(self.free + 1)?;
        self.free += 1;
        Ok(PlainSet::new(alloc, rows))
    }

    fn close(&mut self, _set: PlainSet, whole: PlainWhole) {
        self.free -= 1;
        self.histories.push_reserved(whole.into_entries());
    }
}
