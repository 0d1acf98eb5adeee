//! The table, a caller's token, and the places in which tokens rest.
ghost use Rattle.std.specs.Prelude.{◌≡◌};
ghost use Rattle.crq_rule.specs.Widths.{width};
ghost use Rattle.crq_rule.specs.Owing.{owed_first};

use crate::debts::Debts;
use crate::layout::Start;
use crate::rule::TableLaw;
use crate::view::View;
use atomic_table::Seat;
use std::alloc::Global;
use std::collections::VecDeque;

/// The table of words that all callers share.
#[derive(Drop)]
pub struct Table {
    /// The words, under the rule.
    pub inner: atomic_table::Table<(), View, Start, TableLaw, Global>,
    /// Where each word lies.
    pub start: Start,
    ghost wide: { inner.shared.table_id.words ≡ width start.layout },
    ghost keyed: { inner.shared.key ≡ start },
}

/// A caller's token: it makes its steps with it.
#[derive(Drop)]
pub struct Pass {
    /// The caller's seat at the table, which has no bytes.
    pub seat: Seat<(), View>,
    /// The caller's number, from 0.
    pub number: u32,
    /// The caller's free home rows. They are taken from the front.
    pub free: VecDeque<u32>,
    /// What the caller owes.
    pub debts: Debts,
    /// How many exchanges the present call has made; it stands still at the type's end.
    pub turns: u32,
}

/// What stays of a caller while its seat is joined into another.
#[derive(Drop)]
pub struct Rest {
    /// The caller's free home rows.
    pub free: VecDeque<u32>,
    /// What the caller owes.
    pub debts: Debts,
}

/// The place of one caller.
#[derive(Drop)]
pub enum Seating {
    /// The caller's pass is here.
    Here(Pass),
    /// All seats are one, and the caller rests.
    Resting(Rest),
    /// The pass was taken out.
    Lifted,
}

/// What a pass owes first. Debts are finished in this order: an event to settle, a copy, a dead row to cut.
#[derive(Clone, Copy, Debug, PartialEq, Eq)]
pub enum Owes {
    /// The pass owes nothing.
    Nothing,
    /// It linked an event that isn't settled.
    Settle,
    /// It has dead rows to cut, and nothing else.
    Cut,
    /// It linked a copy that isn't bound, and has no event to settle.
    Copy,
}

impl Pass {
    /// The caller's number, from 0.
    pub fn number(&self) -> u32
        ensures { result ≡ self.now.number }
    {
        self.number
    }

    /// What the pass owes first.
    pub fn owes(&self) -> Owes
        ensures { result ≡ owed_first self.now.debts }
    {
        if self.debts.settle.is_some() {
            Owes::Settle
        } else if self.debts.copy.is_some() {
            Owes::Copy
        } else if self.debts.cut.is_some() || self.debts.second_cut.is_some() {
            Owes::Cut
        } else {
            Owes::Nothing
        }
    }
}
