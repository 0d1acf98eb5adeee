//! Freezing the heads of the table that moves.
ghost use Rattle.std.specs.Prelude.{◌≡◌, ◌==◌, ◌+◌, ◌^◌, ◌<◌, cond};
ghost use Rattle.crq_rows.specs.Passes.{IsPassOf};
ghost use Rattle.crq_list.specs.declared.parts.Progress.TheVariants.{More, Done};
ghost use Rattle.crq_list.specs.Operations.{IsUnderWay, MakesStep};
ghost use Rattle.crq_move.specs.declared.parts.PartEnd.TheVariants.{Done as PartDone};
ghost use Rattle.crq_move.specs.declared.freeze.FreezeState.TheVariants.{Load, Freeze};
ghost use Rattle.crq_move.specs.Freezing.{the_freezing, freeze_exchanges};

use crate::heads::old_head;
use crate::parts::PartEnd;
use crate::steps::{freeze_head_step, head_step};
use crq_base::{Control, Link, Mark};
use crq_list::Progress;
use crq_rows::{Pass, Table};

/// What is done next with the head at which a freezing is.
#[derive(Clone, Copy)]
pub enum FreezeState {
    /// Its link is to be loaded.
    Load,
    /// This present link was found, and the head is to be frozen.
    Freeze(Link),
}

/// Freezes the heads of the table that moves, one atomic step at a time. Those that another helper froze are passed. It
/// begins once all heads of the new table were passed, and is given up where a head is of a later table.
#[derive(Clone, Copy)]
pub struct FreezeOp {
    /// The control word of the move.
    pub control: Control,
    /// How many heads were passed.
    pub passed: u32,
    /// What is done next with the next head.
    pub state: FreezeState,
}

impl FreezeOp {
    /// A freezing that has made no step.
    pub fn new(control: &Control) -> FreezeOp
        ensures { result ≡ record { control = control.now; passed = 0; state = Load } }
    {
        FreezeOp {
            control: *control,
            passed: 0,
            state: FreezeState::Load,
        }
    }

    /// Whether the next step is an exchange.
    pub fn exchanges(&self) -> bool
        ensures { result ≡ freeze_exchanges self.now }
    {
        matches!(self.state, FreezeState::Freeze(_))
    }

    /// Passes the head, and says whether it was the last one.
    fn pass_head(&mut self) -> Progress<PartEnd>
        requires log { self.old.control.log < 2 ^ 4 }
        requires more { self.old.passed < 2 ^ self.old.control.log }
        ensures passed { self.new ≡ record self.old { passed = self.old.passed + 1; state = Load } }
        ensures last { result ≡ cond (self.old.passed + 1 == 2 ^ self.old.control.log) (Done PartDone) More }
    {
        self.passed += 1;
        self.state = FreezeState::Load;
        if self.passed == 1 << self.control.log {
            Progress::Done(PartEnd::Done)
        } else {
            Progress::More
        }
    }

    /// Loads the link of the next head. It is passed where it is frozen already. Where it is of a later table, the move is over.
    fn load(&mut self, table: &Table, pass: &mut Pass) -> Progress<PartEnd>
        requires of { IsPassOf table.now pass.old }
        requires op { IsUnderWay the_freezing table.now (self.old, pass.old) }
        requires state { self.old.state ≡ Load }
        ensures { MakesStep the_freezing table.now (self.old, pass.old) (self.new, pass.new) result }
    {
        let head = old_head(&self.control, pass.number, self.passed);
        let link = head_step(table, pass, head);
        if link.generation != self.control.generation {
            return Progress::Done(PartEnd::Passed);
        }
        match link.mark {
            Mark::Mov => self.pass_head(),
            _ => {
                self.state = FreezeState::Freeze(link);
                Progress::More
            }
        }
    }

    /// Freezes the next head, which was found with this link. Where it isn't that any more, it is loaded again.
    fn freeze(&mut self, table: &Table, pass: &mut Pass, link: Link) -> Progress<PartEnd>
        requires of { IsPassOf table.now pass.old }
        requires op { IsUnderWay the_freezing table.now (self.old, pass.old) }
        requires state { self.old.state ≡ Freeze link }
        ensures { MakesStep the_freezing table.now (self.old, pass.old) (self.new, pass.new) result }
    {
        let head = old_head(&self.control, pass.number, self.passed);
        if freeze_head_step(table, pass, &self.control, head, link) {
            return self.pass_head();
        }
        self.state = FreezeState::Load;
        Progress::More
    }

    /// Makes one atomic step.
    pub fn step(&mut self, table: &Table, pass: &mut Pass) -> Progress<PartEnd>
        requires of { IsPassOf table.now pass.old }
        requires op { IsUnderWay the_freezing table.now (self.old, pass.old) }
        ensures { MakesStep the_freezing table.now (self.old, pass.old) (self.new, pass.new) result }
    {
        match self.state {
            FreezeState::Load => self.load(table, pass),
            FreezeState::Freeze(link) => self.freeze(table, pass, link),
        }
    }
}
