//! Helping a move: one part after another.
ghost use Rattle.std.specs.Prelude.{◌≡◌};
ghost use Rattle.crq_rows.specs.Passes.{IsPassOf};
ghost use Rattle.crq_list.specs.Operations.{IsUnderWay, MakesStep};
ghost use Rattle.crq_move.specs.declared.prepare.PrepareState.TheVariants.{Load};
ghost use Rattle.crq_move.specs.declared.help.HelpPart.TheVariants.{Prepare, Freeze, Pin as PinPart, Empty, Finish, Over};
ghost use Rattle.crq_move.specs.Helping.{the_help, help_exchanges, RoomAt};

use crate::empty::MoveOp;
use crate::finish::FinishOp;
use crate::freeze::FreezeOp;
use crate::parts::PartEnd;
use crate::pin::PinOp;
use crate::prepare::PrepareOp;
use crq_base::Control;
use crq_list::{Progress, control_step};
use crq_rows::{Pass, Table};

/// Which part of a move a helper is at.
#[derive(Clone, Copy)]
pub enum HelpPart {
    /// The heads of the new table are opened.
    Prepare(PrepareOp),
    /// The heads of the table that moves are frozen.
    Freeze(FreezeOp),
    /// The new table is pinned to an epoch of current.
    Pin(PinOp),
    /// The lists of the table that moves are emptied.
    Empty(MoveOp),
    /// Current is led past the pin, and the new table opened.
    Finish(FinishOp),
    /// The control word is to be loaded: the move is over, or a part of it was given up.
    Over,
}

/// How a help ends.
#[derive(Clone, Copy, Debug, PartialEq, Eq)]
pub enum HelpEnd {
    /// The control word was found steady, with a table of this generation open.
    Steady(u32),
    /// A move goes on, as this control word says: that which was helped, or a later one. To help it the caller begins anew.
    Moving(Control),
    /// The copy of an event wants a row, and the pass has none free. The help may go on once it has one.
    NeedRow,
}

/// A helper's part in a move, one atomic step at a time: it opens the heads of the new table, freezes those of the table
/// that moves, pins the new table to an epoch of current, empties the old lists, leads current past the pin, and opens the
/// new table. Each head is passed by each helper, and a part begins once the one before it ended. It ends with a load of the
/// control word.
#[derive(Clone, Copy)]
pub struct HelpOp {
    /// The control word of the move.
    pub control: Control,
    /// The part at which the helper is.
    pub part: HelpPart,
}

impl HelpOp {
    /// Help that has made no step.
    pub fn new(control: &Control) -> HelpOp
        ensures { result ≡ record { control = control.now; part = Prepare (record { control = control.now; passed = 0; state = Load }) } }
    {
        HelpOp {
            control: *control,
            part: HelpPart::Prepare(PrepareOp::new(control)),
        }
    }

    /// Whether the next step is an exchange.
    pub fn exchanges(&self) -> bool
        ensures { result ≡ help_exchanges self.now }
    {
        match self.part {
            HelpPart::Prepare(op) => op.exchanges(),
            HelpPart::Freeze(op) => op.exchanges(),
            HelpPart::Pin(op) => op.exchanges(),
            HelpPart::Empty(op) => op.exchanges(),
            HelpPart::Finish(op) => op.exchanges(),
            HelpPart::Over => false,
        }
    }

    /// Makes a step of the preparation. The freezing follows on it.
    fn prepare(&mut self, table: &Table, pass: &mut Pass, preparing: PrepareOp) -> Progress<HelpEnd>
        requires of { IsPassOf table.now pass.old }
        requires op { IsUnderWay the_help table.now (self.old, pass.old) }
        requires room { RoomAt self.old.part pass.old.debts }
        requires part { self.old.part ≡ Prepare preparing }
        ensures { MakesStep the_help table.now (self.old, pass.old) (self.new, pass.new) result }
    {
        let mut op = preparing;
        match op.step(table, pass) {
            Progress::More => self.part = HelpPart::Prepare(op),
            Progress::Done(_) => self.part = HelpPart::Freeze(FreezeOp::new(&self.control)),
        }
        Progress::More
    }

    /// Makes a step of the freezing. The pin follows on it, unless the move is over.
    fn freeze(&mut self, table: &Table, pass: &mut Pass, freezing: FreezeOp) -> Progress<HelpEnd>
        requires of { IsPassOf table.now pass.old }
        requires op { IsUnderWay the_help table.now (self.old, pass.old) }
        requires room { RoomAt self.old.part pass.old.debts }
        requires part { self.old.part ≡ Freeze freezing }
        ensures { MakesStep the_help table.now (self.old, pass.old) (self.new, pass.new) result }
    {
        let mut op = freezing;
        match op.step(table, pass) {
            Progress::More => self.part = HelpPart::Freeze(op),
            Progress::Done(PartEnd::Done) => {
                self.part = HelpPart::Pin(PinOp::new(&self.control));
            }
            Progress::Done(_) => self.part = HelpPart::Over,
        }
        Progress::More
    }

    /// Makes a step of the pinning. The emptying follows on it, unless the move is over.
    fn pin(&mut self, table: &Table, pass: &mut Pass, pinning: PinOp) -> Progress<HelpEnd>
        requires of { IsPassOf table.now pass.old }
        requires op { IsUnderWay the_help table.now (self.old, pass.old) }
        requires room { RoomAt self.old.part pass.old.debts }
        requires part { self.old.part ≡ PinPart pinning }
        ensures { MakesStep the_help table.now (self.old, pass.old) (self.new, pass.new) result }
    {
        let mut op = pinning;
        match op.step(table, pass) {
            Progress::More => self.part = HelpPart::Pin(op),
            Progress::Done(PartEnd::Done) => {
                self.part = HelpPart::Empty(MoveOp::new(&self.control));
            }
            Progress::Done(_) => self.part = HelpPart::Over,
        }
        Progress::More
    }

    /// Makes a step of the emptying. The opening follows on it, unless it is given up. Where the answer is NeedRow, it may
    /// go on once the pass has a free row.
    fn empty(&mut self, table: &Table, pass: &mut Pass, emptying: MoveOp) -> Progress<HelpEnd>
        requires of { IsPassOf table.now pass.old }
        requires op { IsUnderWay the_help table.now (self.old, pass.old) }
        requires room { RoomAt self.old.part pass.old.debts }
        requires part { self.old.part ≡ Empty emptying }
        ensures { MakesStep the_help table.now (self.old, pass.old) (self.new, pass.new) result }
    {
        let mut op = emptying;
        match op.step(table, pass) {
            Progress::More => self.part = HelpPart::Empty(op),
            Progress::Done(PartEnd::Done) => {
                self.part = HelpPart::Finish(FinishOp::new(&self.control));
            }
            Progress::Done(PartEnd::NeedRow) => {
                self.part = HelpPart::Empty(op);
                return Progress::Done(HelpEnd::NeedRow);
            }
            Progress::Done(PartEnd::Passed) => self.part = HelpPart::Over,
        }
        Progress::More
    }

    /// Makes a step of the opening.
    fn finish(&mut self, table: &Table, pass: &mut Pass, finishing: FinishOp) -> Progress<HelpEnd>
        requires of { IsPassOf table.now pass.old }
        requires op { IsUnderWay the_help table.now (self.old, pass.old) }
        requires room { RoomAt self.old.part pass.old.debts }
        requires part { self.old.part ≡ Finish finishing }
        ensures { MakesStep the_help table.now (self.old, pass.old) (self.new, pass.new) result }
    {
        let mut op = finishing;
        match op.step(table, pass) {
            Progress::More => self.part = HelpPart::Finish(op),
            Progress::Done(_) => self.part = HelpPart::Over,
        }
        Progress::More
    }

    /// Loads the control word, with which the help ends.
    fn end(&self, table: &Table, pass: &mut Pass) -> Progress<HelpEnd>
        requires of { IsPassOf table.now pass.old }
        requires op { IsUnderWay the_help table.now (self.now, pass.old) }
        requires part { self.now.part ≡ Over }
        ensures { MakesStep the_help table.now (self.now, pass.old) (self.now, pass.new) result }
    {
        let control = control_step(table, pass);
        if control.moving {
            return Progress::Done(HelpEnd::Moving(control));
        }
        Progress::Done(HelpEnd::Steady(control.generation))
    }

    /// Makes one atomic step.
    pub fn step(&mut self, table: &Table, pass: &mut Pass) -> Progress<HelpEnd>
        requires of { IsPassOf table.now pass.old }
        requires op { IsUnderWay the_help table.now (self.old, pass.old) }
        requires room { RoomAt self.old.part pass.old.debts }
        ensures { MakesStep the_help table.now (self.old, pass.old) (self.new, pass.new) result }
    {
        match self.part {
            HelpPart::Prepare(op) => self.prepare(table, pass, op),
            HelpPart::Freeze(op) => self.freeze(table, pass, op),
            HelpPart::Pin(op) => self.pin(table, pass, op),
            HelpPart::Empty(op) => self.empty(table, pass, op),
            HelpPart::Finish(op) => self.finish(table, pass, op),
            HelpPart::Over => self.end(table, pass),
        }
    }
}
