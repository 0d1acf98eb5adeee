//! Binding a copy that is owed to the row of which it is the copy.
ghost use Rattle.std.specs.Prelude.{◌≡◌, None};
ghost use Rattle.crq_rows.specs.Passes.{IsPassOf};
ghost use Rattle.crq_list.specs.Operations.{IsUnderWay, MakesStep};
ghost use Rattle.crq_move.specs.declared.bind.BindState.TheVariants.{Twin, Bind, CopyLink, Drop};
ghost use Rattle.crq_move.specs.Binding.{the_binding, bind_exchanges};

use crate::steps::{bind_step, copy_link_step, drop_step, owed_twin_step};
use crq_base::{Link, Mark};
use crq_list::Progress;
use crq_rows::{Pass, Table};
use crq_rule::CopyDebt;

/// What is done next with the copy.
#[derive(Clone, Copy)]
pub enum BindState {
    /// The old row's twin is to be loaded.
    Twin,
    /// The old row was found to have no twin, and the copy is to be bound to it.
    Bind,
    /// The old row has another twin, and the link of the copy is to be loaded.
    CopyLink,
    /// The copy was found not to be valid, with this link, and is to be discarded.
    Drop(Link),
}

/// How a copy comes out that was owed. The pass owes it no more.
#[derive(Clone, Copy, Debug, PartialEq, Eq)]
pub enum BindEnd {
    /// It was bound.
    Bound,
    /// Another copy is the old row's twin, and this one was discarded already, by a caller that found it in a frozen list.
    Dead,
    /// Another copy is the old row's twin, and this one was discarded. The pass owes it to be cut.
    Discarded,
}

/// Binds a copy that the pass owes to its old row, or discards it where that has another twin, one atomic step at a time.
/// It rests on nothing but the debt: a call may take it up that another one left, even where the move is over by then.
#[derive(Clone, Copy)]
pub struct BindOp {
    /// The copy.
    pub debt: CopyDebt,
    /// What is done next.
    pub state: BindState,
}

impl BindOp {
    /// A binding that has made no step.
    pub fn new(debt: &CopyDebt) -> BindOp
        ensures { result ≡ record { debt = debt.now; state = Twin } }
    {
        BindOp {
            debt: *debt,
            state: BindState::Twin,
        }
    }

    /// Whether the next step is an exchange.
    pub fn exchanges(&self) -> bool
        ensures { result ≡ bind_exchanges self.now }
    {
        matches!(self.state, BindState::Bind | BindState::Drop(_))
    }

    /// Loads the twin of the old row.
    fn twin(&mut self, table: &Table, pass: &mut Pass) -> Progress<BindEnd>
        requires of { IsPassOf table.now pass.old }
        requires op { IsUnderWay the_binding table.now (self.old, pass.old) }
        requires state { self.old.state ≡ Twin }
        ensures { MakesStep the_binding table.now (self.old, pass.old) (self.new, pass.new) result }
    {
        if owed_twin_step(table, pass, &self.debt) == 0 {
            self.state = BindState::Bind;
        } else {
            self.state = BindState::CopyLink;
        }
        Progress::More
    }

    /// Binds the copy, where the old row still has no twin.
    fn bind(&mut self, table: &Table, pass: &mut Pass) -> Progress<BindEnd>
        requires of { IsPassOf table.now pass.old }
        requires op { IsUnderWay the_binding table.now (self.old, pass.old) }
        requires state { self.old.state ≡ Bind }
        ensures { MakesStep the_binding table.now (self.old, pass.old) (self.new, pass.new) result }
    {
        if bind_step(table, pass, &self.debt) == 0 {
            return Progress::Done(BindEnd::Bound);
        }
        self.state = BindState::CopyLink;
        Progress::More
    }

    /// Loads the link of the copy. Where it is dead, the pass owes it no more.
    fn copy_link(&mut self, table: &Table, pass: &mut Pass) -> Progress<BindEnd>
        requires of { IsPassOf table.now pass.old }
        requires op { IsUnderWay the_binding table.now (self.old, pass.old) }
        requires state { self.old.state ≡ CopyLink }
        ensures { MakesStep the_binding table.now (self.old, pass.old) (self.new, pass.new) result }
    {
        let link = copy_link_step(table, pass, &self.debt);
        match link.mark {
            Mark::Del => Progress::Done(BindEnd::Dead),
            _ => {
                self.state = BindState::Drop(link);
                Progress::More
            }
        }
    }

    /// Discards the copy, where its link still is this one.
    fn discard(&mut self, table: &Table, pass: &mut Pass, link: Link) -> Progress<BindEnd>
        requires of { IsPassOf table.now pass.old }
        requires op { IsUnderWay the_binding table.now (self.old, pass.old) }
        requires room { pass.old.debts.second_cut ≡ None }
        requires state { self.old.state ≡ Drop link }
        ensures { MakesStep the_binding table.now (self.old, pass.old) (self.new, pass.new) result }
    {
        if drop_step(table, pass, &self.debt, link) {
            return Progress::Done(BindEnd::Discarded);
        }
        self.state = BindState::CopyLink;
        Progress::More
    }

    /// Makes one atomic step. The pass has room for a second dead row, since the copy may come to be one.
    pub fn step(&mut self, table: &Table, pass: &mut Pass) -> Progress<BindEnd>
        requires of { IsPassOf table.now pass.old }
        requires op { IsUnderWay the_binding table.now (self.old, pass.old) }
        requires room { pass.old.debts.second_cut ≡ None }
        ensures { MakesStep the_binding table.now (self.old, pass.old) (self.new, pass.new) result }
    {
        match self.state {
            BindState::Twin => self.twin(table, pass),
            BindState::Bind => self.bind(table, pass),
            BindState::CopyLink => self.copy_link(table, pass),
            BindState::Drop(link) => self.discard(table, pass, link),
        }
    }
}
