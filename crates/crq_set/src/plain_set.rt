//! A set of pending events for one caller, which keeps them in an ordered set.

ghost use Rattle.std.specs.Prelude.{◌≡◌, ◌<◌, ◌≤◌, ◌∷◌, ◌++◌, [], IfSome, IfNone};
ghost use Rattle.std.specs.List.{All};
ghost use Rattle.std.specs.BTreeMap.Range.{IsLeBy, IsLtBy};
ghost use Rattle.crq_base.specs.Keys.{event_cmp};

use crate::event_set::EventSet;
use crq_base::{Entry, Event, Route, Short, TakeEnd};
use std::alloc::Global;
use std::collections::BTreeSet;
use std::sync::Wait;

/// Takes the first of the events, where its time lies below the limit.
fn take_below(events: &mut BTreeSet<Event>, limit: u64) -> Option<Event>
    ensures first { IfSome result (λ e. events.old.keys ≡ e ∷ events.new.keys) }
    ensures least { IfSome result (λ e. All (IsLtBy event_cmp e) events.new.keys) }
    ensures below { IfSome result (λ e. e.time < limit) }
    ensures stay { IfNone result (events.new.keys ≡ events.old.keys) }
    ensures none { IfNone result (All (λ f. limit ≤ f.time) events.old.keys) }
{
    let first = events.first()?;
    if u64::from(first.time) < limit {
        events.pop_first()
    } else {
        None
    }
}

/// A set for one caller. It is one bucket, which begins at tick 0, so each event that is taken was found there.
///
/// It never lacks rows or epochs, and it never waits. A put or a take costs the logarithm of the number of pending events,
/// and now and then the growth of the history.
#[derive(Drop)]
pub struct PlainSet {
    rows: u32,
}

impl PlainSet {
    /// An empty set, which keeps the number of rows for its setup alone, and all its passes as one. It takes no memory.
    pub(crate) fn new(alloc: Global, rows: u32) -> (PlainSet, PlainWhole)
        ensures rows { result.0.rows ≡ rows }
        ensures none { result.1.entries.items ≡ [] }
        ensures empty { result.1.pending.keys ≡ [] }
    {
        let whole = PlainWhole {
            entries: Vec::new(alloc),
            pending: BTreeSet::new(alloc),
        };
        (PlainSet { rows }, whole)
    }
}

/// The pass of a plain set.
#[derive(Drop)]
pub struct PlainPass {
    /// The history: first what was dealt, and then this pass's own entries.
    entries: Vec<Entry>,
    /// The events that were put and not taken.
    pending: BTreeSet<Event>,
    /// How many entries were dealt.
    dealt: usize,
    /// How many sources in a row it was dealt.
    span: u32,
}

impl PlainPass {
    /// What the pass has seen: the history that was dealt to it, and its own entries since.
    pub fn seen(&self) -> &[Entry]
        ensures { result.now ≡ (⟦<PlainSet as EventSet>⟧.view self.now).dealt ++ (⟦<PlainSet as EventSet>⟧.view self.now).own }
    {
        self.entries.as_slice()
    }
}

/// The place of a plain set's one pass.
#[derive(Drop)]
pub struct PlainPasses {
    pass: Option<PlainPass>,
}

/// The history of a plain set at which nobody is at work, and its pending events.
#[derive(Drop)]
pub struct PlainWhole {
    entries: Vec<Entry>,
    pending: BTreeSet<Event>,
}

impl PlainWhole {
    /// Its history.
    pub(crate) fn into_entries(self) -> Vec<Entry>
        ensures { result.items ≡ self.entries.items }
    {
        self.entries
    }
}

impl EventSet for PlainSet {
    ghost use Rattle.std.specs.Prelude.{◌∷◌, [], option_map};
    ghost use Rattle.std.specs.Option.{ForSome};
    ghost use Rattle.crq_set.specs.Plain.{IsKept, IsInOrder, plain_view, plain_setup};

    type Pass = PlainPass;

    type Passes = PlainPasses;

    type Whole = PlainWhole;

    ghost setup = { λ s. plain_setup s.rows };

    ghost view = { λ p. plain_view p.entries.items p.dealt p.span };

    ghost is_of = { λ s p. IsInOrder p.entries.items p.pending.keys p.dealt };

    ghost places = { λ ps. option_map (λ p. plain_view p.entries.items p.dealt p.span) ps.pass ∷ [] };

    ghost are_of = { λ s ps. ForSome ps.pass (λ p. IsInOrder p.entries.items p.pending.keys p.dealt) };

    ghost history = { λ w. w.entries.items };

    ghost is_whole = { λ s w. IsKept w.entries.items w.pending.keys };

    fn put<R: Wait>(&self, _rt: &R, pass: &mut PlainPass, event: &Event) -> Result<(), Short> {
        if pass.entries.reserve(3).is_err() {
            return Err(Short::Memory);
        }
        let Ok(_added) = pass.pending.insert(*event) else {
            return Err(Short::Memory);
        };
        pass.entries.push_reserved(Entry::Begin(0));
        pass.entries.push_reserved(Entry::Put(0, *event));
        pass.entries.push_reserved(Entry::Settled(0, *event));
        Ok(())
    }

    fn take<R: Wait>(&self, _rt: &R, pass: &mut PlainPass, limit: u64) -> Result<TakeEnd, Short> {
        if pass.entries.reserve(2).is_err() {
            return Err(Short::Memory);
        }
        pass.entries.push_reserved(Entry::Begin(0));
        match take_below(&mut pass.pending, limit) {
            Some(event) => {
                pass.entries.push_reserved(Entry::Take(0, event));
                Ok(TakeEnd::Taken(event, Route::Bucket(0)))
            }
            None => {
                pass.entries.push_reserved(Entry::Miss(0, limit));
                Ok(TakeEnd::Missed)
            }
        }
    }

    fn gather(&self, passes: PlainPasses) -> PlainWhole {
        let pass = passes.pass.unwrap();
        PlainWhole {
            entries: pass.entries,
            pending: pass.pending,
        }
    }

    fn deal(&self, whole: PlainWhole, span: u32) -> PlainPasses {
        let dealt = whole.entries.len();
        PlainPasses {
            pass: Some(PlainPass {
                entries: whole.entries,
                pending: whole.pending,
                dealt,
                span,
            }),
        }
    }

    fn lift(&self, passes: &mut PlainPasses, _number: u32) -> PlainPass {
        passes.pass.take().unwrap()
    }

    fn lower(&self, passes: &mut PlainPasses, pass: PlainPass) {
        passes.pass = Some(pass);
    }
}
