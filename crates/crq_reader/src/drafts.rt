//! The objects of a file, found by number and by name.

ghost use Rattle.std.specs.Prelude.{◌≡◌, ◌<◌, ◌≤◌, [], ◌∷◌, ◌++◌, map, length, None, OnOk};
ghost use Rattle.std.specs.List.{All};
ghost use Rattle.crq_reader.specs.Drafts.{named_seen, IsNamed};
ghost use Rattle.crq_reader.specs.Language as language;
ghost use Rattle.crq_reader.specs.Language.{names_of};

use crate::draft::Draft;
use crq_sim::MOST_OBJECTS;
use std::alloc::{AllocError, Global};
use std::collections::BTreeMap;
use std::marker;

/// Objects in order, no more than a model has at most, each with a name of its own.
#[derive(Drop)]
pub struct Drafts<'v> {
    objects: Vec<Draft<'v>>,
    numbers: BTreeMap<&'v str, u32>,
}

impl<'v> marker::Model for Drafts<'v> {
    ghost use Rattle.std.specs.Prelude.{◌≤◌, List, length, map};
    ghost use Rattle.std.specs.List.{All};
    ghost use Rattle.crq_reader.specs.Drafts.{named_seen, IsNamed, Finds};
    ghost use Rattle.crq_reader.specs.Language.{Named, names_of};
    ghost use Rattle.crq_sim.specs.declared.model.TheConstants.{MOST_OBJECTS};

    ghost Value = { List Named };

    ghost view = { λ d. map named_seen d.objects.items };

    ghost invariant = { λ d. Finds d.numbers (names_of (map named_seen d.objects.items)) × All IsNamed (map named_seen d.objects.items) × (length d.objects.items ≤ MOST_OBJECTS) };
}

impl<'v> Drafts<'v> {
    /// No object yet.
    pub fn new(alloc: Global) -> Drafts<'v>
        ensures { result ≡ [] }
    {
        Drafts {
            objects: Vec::new(alloc),
            numbers: BTreeMap::new(alloc),
        }
    }

    /// How many objects there are.
    pub fn len(&self) -> u32
        ensures len { result ≡ length self.now }
        ensures few { result ≤ MOST_OBJECTS }
    {
        self.objects.len() as u32
    }

    /// The objects in order.
    pub fn as_slice(&self) -> &[Draft<'v>]
        ensures value { map named_seen result.now ≡ self.now }
        ensures named { All IsNamed self.now }
        ensures few { length result.now ≤ MOST_OBJECTS }
    {
        self.objects.as_slice()
    }

    /// The number of the object with that name, in time that grows with the logarithm of how many there are.
    pub fn number_of(&self, name: &str) -> Option<u32>
        ensures { result ≡ language.number_of (names_of self.now) name.now }
    {
        self.numbers.get(name).copied()
    }

    /// Adds an object at the end, where there is memory for it.
    pub fn push(&mut self, draft: Draft<'v>) -> Result<(), AllocError>
        requires few { length self.old < MOST_OBJECTS }
        requires named { IsNamed (named_seen draft) }
        requires new { language.number_of (names_of self.old) draft.name.now ≡ None }
        ensures { OnOk result (self.new ≡ self.old ++ named_seen draft.entry ∷ []) }
    {
        let number = self.len() + 1;
        self.objects.reserve(1)?;
        self.numbers.insert(draft.name, number)?;
        self.objects.push_reserved(draft);
        Ok(())
    }
}
