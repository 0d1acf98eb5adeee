//! Setting the pin: the word that names the next table, and an epoch of current after which no take of the old one matters.
ghost use Rattle.std.specs.Prelude.{◌≡◌};
ghost use Rattle.crq_rows.specs.Passes.{IsPassOf};
ghost use Rattle.crq_list.specs.Operations.{IsUnderWay, MakesStep};
ghost use Rattle.crq_move.specs.declared.pin.PinState.TheVariants.{LoadCurrent, LoadPin, Set};
ghost use Rattle.crq_move.specs.Pinning.{the_pinning, pin_exchanges};

use crate::ending::{for_pin_step, pin_load_step, pin_step};
use crate::parts::PartEnd;
use crq_base::{Control, Pin};
use crq_list::Progress;
use crq_rows::{Pass, Table};

/// What is done next for the pin.
#[derive(Clone, Copy)]
pub enum PinState {
    /// Current is to be loaded, whose epoch is to be pinned.
    LoadCurrent,
    /// The pin is to be loaded, to be set to this epoch.
    LoadPin(u32),
    /// This pin of an older table was found, and the next table is to be pinned to this epoch.
    Set(u32, Pin),
}

/// Pins the next table to an epoch of current that was loaded after all heads of the table that moves were found frozen, one
/// atomic step at a time. It ends once the pin was found to name that table, whoever set it.
#[derive(Clone, Copy)]
pub struct PinOp {
    /// The control word of the move.
    pub control: Control,
    /// What is done next.
    pub state: PinState,
}

impl PinOp {
    /// A pinning that has made no step.
    pub fn new(control: &Control) -> PinOp
        ensures { result ≡ record { control = control.now; state = LoadCurrent } }
    {
        PinOp {
            control: *control,
            state: PinState::LoadCurrent,
        }
    }

    /// Whether the next step is an exchange.
    pub fn exchanges(&self) -> bool
        ensures { result ≡ pin_exchanges self.now }
    {
        matches!(self.state, PinState::Set(_, _))
    }

    /// Loads current.
    fn load_current(&mut self, table: &Table, pass: &mut Pass) -> Progress<PartEnd>
        requires of { IsPassOf table.now pass.old }
        requires op { IsUnderWay the_pinning table.now (self.old, pass.old) }
        requires state { self.old.state ≡ LoadCurrent }
        ensures { MakesStep the_pinning table.now (self.old, pass.old) (self.new, pass.new) result }
    {
        let current = for_pin_step(table, pass, &self.control);
        self.state = PinState::LoadPin(current.epoch);
        Progress::More
    }

    /// Loads the pin. Where it names the next table the pinning is done, and where it names a later one the move is over.
    fn load_pin(&mut self, table: &Table, pass: &mut Pass, epoch: u32) -> Progress<PartEnd>
        requires of { IsPassOf table.now pass.old }
        requires op { IsUnderWay the_pinning table.now (self.old, pass.old) }
        requires state { self.old.state ≡ LoadPin epoch }
        ensures { MakesStep the_pinning table.now (self.old, pass.old) (self.new, pass.new) result }
    {
        let pin = pin_load_step(table, pass);
        if pin.generation <= self.control.generation {
            self.state = PinState::Set(epoch, pin);
            return Progress::More;
        }
        if pin.generation == self.control.generation + 1 {
            return Progress::Done(PartEnd::Done);
        }
        Progress::Done(PartEnd::Passed)
    }

    /// Sets the pin, where it still is this one. Whether it was set or not, it is loaded again.
    fn set(&mut self, table: &Table, pass: &mut Pass, epoch: u32, pin: Pin) -> Progress<PartEnd>
        requires of { IsPassOf table.now pass.old }
        requires op { IsUnderWay the_pinning table.now (self.old, pass.old) }
        requires state { self.old.state ≡ Set epoch pin }
        ensures { MakesStep the_pinning table.now (self.old, pass.old) (self.new, pass.new) result }
    {
        pin_step(table, pass, &self.control, epoch, pin);
        self.state = PinState::LoadPin(epoch);
        Progress::More
    }

    /// Makes one atomic step.
    pub fn step(&mut self, table: &Table, pass: &mut Pass) -> Progress<PartEnd>
        requires of { IsPassOf table.now pass.old }
        requires op { IsUnderWay the_pinning table.now (self.old, pass.old) }
        ensures { MakesStep the_pinning table.now (self.old, pass.old) (self.new, pass.new) result }
    {
        match self.state {
            PinState::LoadCurrent => self.load_current(table, pass),
            PinState::LoadPin(epoch) => self.load_pin(table, pass, epoch),
            PinState::Set(epoch, pin) => self.set(table, pass, epoch, pin),
        }
    }
}
