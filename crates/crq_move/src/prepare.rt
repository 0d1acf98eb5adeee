//! Opening the heads of the new table.
ghost use Rattle.std.specs.Prelude.{◌≡◌, ◌==◌, ◌+◌, ◌^◌, ◌<◌, cond};
ghost use Rattle.crq_rows.specs.Passes.{IsPassOf};
ghost use Rattle.crq_list.specs.declared.parts.Progress.TheVariants.{More, Done};
ghost use Rattle.crq_list.specs.Operations.{IsUnderWay, MakesStep};
ghost use Rattle.crq_move.specs.declared.parts.PartEnd.TheVariants.{Done as PartDone};
ghost use Rattle.crq_move.specs.declared.prepare.PrepareState.TheVariants.{Load, Open};
ghost use Rattle.crq_move.specs.Preparing.{the_preparing, prepare_exchanges};

use crate::heads::new_head;
use crate::parts::PartEnd;
use crate::steps::{head_step, prepare_step};
use crq_base::{Control, Link};
use crq_list::Progress;
use crq_rows::{Pass, Table};

/// What is done next with the head at which a preparation is.
#[derive(Clone, Copy)]
pub enum PrepareState {
    /// Its link is to be loaded.
    Load,
    /// This link of an older table was found, and the head is to be opened.
    Open(Link),
}

/// Opens the heads of the new table, one atomic step at a time. Those that another helper opened are passed.
#[derive(Clone, Copy)]
pub struct PrepareOp {
    /// The control word of the move.
    pub control: Control,
    /// How many heads were passed.
    pub passed: u32,
    /// What is done next with the next head.
    pub state: PrepareState,
}

impl PrepareOp {
    /// A preparation that has made no step.
    pub fn new(control: &Control) -> PrepareOp
        ensures { result ≡ record { control = control.now; passed = 0; state = Load } }
    {
        PrepareOp {
            control: *control,
            passed: 0,
            state: PrepareState::Load,
        }
    }

    /// Whether the next step is an exchange.
    pub fn exchanges(&self) -> bool
        ensures { result ≡ prepare_exchanges self.now }
    {
        matches!(self.state, PrepareState::Open(_))
    }

    /// Passes the head, and says whether it was the last one.
    fn pass_head(&mut self) -> Progress<PartEnd>
        requires log { self.old.control.new_log < 2 ^ 4 }
        requires more { self.old.passed < 2 ^ self.old.control.new_log }
        ensures passed { self.new ≡ record self.old { passed = self.old.passed + 1; state = Load } }
        ensures last { result ≡ cond (self.old.passed + 1 == 2 ^ self.old.control.new_log) (Done PartDone) More }
    {
        self.passed += 1;
        self.state = PrepareState::Load;
        if self.passed == 1 << self.control.new_log {
            Progress::Done(PartEnd::Done)
        } else {
            Progress::More
        }
    }

    /// Loads the link of the next head. It is passed where it is open in the new table already.
    fn load(&mut self, table: &Table, pass: &mut Pass) -> Progress<PartEnd>
        requires of { IsPassOf table.now pass.old }
        requires op { IsUnderWay the_preparing table.now (self.old, pass.old) }
        requires state { self.old.state ≡ Load }
        ensures { MakesStep the_preparing table.now (self.old, pass.old) (self.new, pass.new) result }
    {
        let head = new_head(&self.control, pass.number, self.passed);
        let link = head_step(table, pass, head);
        if link.generation > self.control.generation {
            return self.pass_head();
        }
        self.state = PrepareState::Open(link);
        Progress::More
    }

    /// Opens the next head, which was found with this link. Where it isn't that any more, it is loaded again.
    fn open(&mut self, table: &Table, pass: &mut Pass, link: Link) -> Progress<PartEnd>
        requires of { IsPassOf table.now pass.old }
        requires op { IsUnderWay the_preparing table.now (self.old, pass.old) }
        requires state { self.old.state ≡ Open link }
        ensures { MakesStep the_preparing table.now (self.old, pass.old) (self.new, pass.new) result }
    {
        let head = new_head(&self.control, pass.number, self.passed);
        if prepare_step(table, pass, &self.control, head, link) {
            return self.pass_head();
        }
        self.state = PrepareState::Load;
        Progress::More
    }

    /// Makes one atomic step.
    pub fn step(&mut self, table: &Table, pass: &mut Pass) -> Progress<PartEnd>
        requires of { IsPassOf table.now pass.old }
        requires op { IsUnderWay the_preparing table.now (self.old, pass.old) }
        ensures { MakesStep the_preparing table.now (self.old, pass.old) (self.new, pass.new) result }
    {
        match self.state {
            PrepareState::Load => self.load(table, pass),
            PrepareState::Open(link) => self.open(table, pass, link),
        }
    }
}
