//! Opening the next table.
ghost use Rattle.std.specs.Prelude.{◌≡◌};
ghost use Rattle.crq_rows.specs.Passes.{IsPassOf};
ghost use Rattle.crq_list.specs.Operations.{IsUnderWay, MakesStep};
ghost use Rattle.crq_move.specs.declared.finish.FinishState.TheVariants.{LoadPin, LoadCurrent, Pass as PassState, LoadControl, Open};
ghost use Rattle.crq_move.specs.Finishing.{the_finishing, finish_exchanges};

use crate::ending::{finish_step, pass_step, pin_load_step};
use crate::parts::PartEnd;
use crq_base::{Control, Current, Pin};
use crq_current::current_step;
use crq_list::{Progress, control_step};
use crq_rows::{Pass, Table};

/// What is done next to open the table.
#[derive(Clone, Copy)]
pub enum FinishState {
    /// The pin is to be loaded.
    LoadPin,
    /// The pin was found to be this one, and current is to be loaded.
    LoadCurrent(Pin),
    /// Current was found to be this one, which isn't past the pin, and is to be led past it.
    Pass(Pin, Current),
    /// Current was found to be this one, which is past the pin, and the control word is to be loaded.
    LoadControl(Pin, Current),
    /// The control word was found to be that of the move still, and the table is to be opened.
    Open(Pin, Current),
}

/// Opens the next table once the lists of the table that moves are empty, one atomic step at a time: it leads current past
/// the pin, unless it is so already, loads the control word, and then exchanges it.
#[derive(Clone, Copy)]
pub struct FinishOp {
    /// The control word of the move.
    pub control: Control,
    /// What is done next.
    pub state: FinishState,
}

impl FinishOp {
    /// An opening that has made no step.
    pub fn new(control: &Control) -> FinishOp
        ensures { result ≡ record { control = control.now; state = LoadPin } }
    {
        FinishOp {
            control: *control,
            state: FinishState::LoadPin,
        }
    }

    /// Whether the next step is an exchange.
    pub fn exchanges(&self) -> bool
        ensures { result ≡ finish_exchanges self.now }
    {
        matches!(
            self.state,
            FinishState::Pass(_, _) | FinishState::Open(_, _)
        )
    }

    /// Loads the pin. Where it doesn't name the next table, control has to be loaded again.
    fn load_pin(&mut self, table: &Table, pass: &mut Pass) -> Progress<PartEnd>
        requires of { IsPassOf table.now pass.old }
        requires op { IsUnderWay the_finishing table.now (self.old, pass.old) }
        requires state { self.old.state ≡ LoadPin }
        ensures { MakesStep the_finishing table.now (self.old, pass.old) (self.new, pass.new) result }
    {
        let pin = pin_load_step(table, pass);
        if pin.generation != self.control.generation + 1 {
            return Progress::Done(PartEnd::Passed);
        }
        self.state = FinishState::LoadCurrent(pin);
        Progress::More
    }

    /// Loads current.
    fn load_current(&mut self, table: &Table, pass: &mut Pass, pin: Pin) -> Progress<PartEnd>
        requires of { IsPassOf table.now pass.old }
        requires op { IsUnderWay the_finishing table.now (self.old, pass.old) }
        requires state { self.old.state ≡ LoadCurrent pin }
        ensures { MakesStep the_finishing table.now (self.old, pass.old) (self.new, pass.new) result }
    {
        let current = current_step(table, pass, false);
        if pin.epoch < current.epoch {
            self.state = FinishState::LoadControl(pin, current);
            return Progress::More;
        }
        self.state = FinishState::Pass(pin, current);
        Progress::More
    }

    /// Leads current past the pin, where it still is this one. Whether it was or not, it is loaded again.
    fn pass(
        &mut self,
        table: &Table,
        pass: &mut Pass,
        pin: Pin,
        current: Current,
    ) -> Progress<PartEnd>
        requires of { IsPassOf table.now pass.old }
        requires op { IsUnderWay the_finishing table.now (self.old, pass.old) }
        requires state { self.old.state ≡ PassState pin current }
        ensures { MakesStep the_finishing table.now (self.old, pass.old) (self.new, pass.new) result }
    {
        pass_step(table, pass, current);
        self.state = FinishState::LoadCurrent(pin);
        Progress::More
    }

    /// Loads the control word. Where it isn't that of the move any more, another helper opened the table.
    fn load_control(
        &mut self,
        table: &Table,
        pass: &mut Pass,
        pin: Pin,
        current: Current,
    ) -> Progress<PartEnd>
        requires of { IsPassOf table.now pass.old }
        requires op { IsUnderWay the_finishing table.now (self.old, pass.old) }
        requires state { self.old.state ≡ LoadControl pin current }
        ensures { MakesStep the_finishing table.now (self.old, pass.old) (self.new, pass.new) result }
    {
        let control = control_step(table, pass);
        if control.pack() == self.control.pack() {
            self.state = FinishState::Open(pin, current);
            return Progress::More;
        }
        Progress::Done(PartEnd::Passed)
    }

    /// Opens the table, where the control word still is that of the move. Where it isn't, another helper did so.
    fn open(
        &mut self,
        table: &Table,
        pass: &mut Pass,
        pin: Pin,
        current: Current,
    ) -> Progress<PartEnd>
        requires of { IsPassOf table.now pass.old }
        requires op { IsUnderWay the_finishing table.now (self.old, pass.old) }
        requires state { self.old.state ≡ Open pin current }
        ensures { MakesStep the_finishing table.now (self.old, pass.old) (self.new, pass.new) result }
    {
        finish_step(table, pass, &self.control);
        Progress::Done(PartEnd::Done)
    }

    /// Makes one atomic step.
    pub fn step(&mut self, table: &Table, pass: &mut Pass) -> Progress<PartEnd>
        requires of { IsPassOf table.now pass.old }
        requires op { IsUnderWay the_finishing table.now (self.old, pass.old) }
        ensures { MakesStep the_finishing table.now (self.old, pass.old) (self.new, pass.new) result }
    {
        match self.state {
            FinishState::LoadPin => self.load_pin(table, pass),
            FinishState::LoadCurrent(pin) => self.load_current(table, pass, pin),
            FinishState::Pass(pin, current) => self.pass(table, pass, pin, current),
            FinishState::LoadControl(pin, current) => self.load_control(table, pass, pin, current),
            FinishState::Open(pin, current) => self.open(table, pass, pin, current),
        }
    }
}
