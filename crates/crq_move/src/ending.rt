//! One function for each kind of step that ends a move.
ghost use Rattle.std.specs.Prelude.{◌≡◌};
ghost use Rattle.crq_base.specs.declared.kinds.StepKind.TheVariants.{Pin as PinStep, Pass as PassStep, Finish};
ghost use Rattle.crq_base.specs.declared.words.Control.{Control};
ghost use Rattle.crq_base.specs.declared.words.Current.{Current};
ghost use Rattle.crq_base.specs.declared.words.Pin.{Pin};
ghost use Rattle.crq_base.specs.Words.{IsPin, control_word, current_word, pin_word};
ghost use Rattle.crq_rule.specs.declared.view.Help.{Help};
ghost use Rattle.crq_rule.specs.Places.{index, control as control_place, current as current_place, pin as pin_place};
ghost use Rattle.crq_rule.specs.PinKinds.{MayLoadForPin, MayPin, MayPass, MayFinish, pin_of, passed_from, opened_from};
ghost use Rattle.crq_rows.specs.Passes.{caller, IsPassOf};
ghost use Rattle.crq_move.specs.Endings.{LoadedForPin, PinFound, Tried};

use crq_base::{Control, Current, Pin};
use crq_rows::{Pass, Table, exchange_as, load_turning};
use std::marker::Brand;

/// Loads current, whose epoch is to be pinned, once all heads of the table that moves were found frozen. No take that walks
/// saw a later epoch, and none begins to walk that table any more.
pub fn for_pin_step(table: &Table, pass: &mut Pass, control: &Control) -> Current
    requires of { IsPassOf table.now pass.old }
    requires may { (h : Help) × MayLoadForPin control.now h (caller table.now pass.old) }
    ensures { LoadedForPin table.now pass.old pass.new result }
{
    let word = table.start.layout.current();
    let found = load_turning::<Brand, Control>(table, pass, word, control);
    let Some(current) = Current::unpack(found) else {
        unreachable!()
    };
    current
}

/// Loads the pin. A helper keeps it where it names the table into which its move leads.
pub fn pin_load_step(table: &Table, pass: &mut Pass) -> Pin
    requires { IsPassOf table.now pass.old }
    ensures { PinFound table.now pass.old pass.new result }
{
    let word = table.start.layout.pin();
    let found = load_turning::<Brand, ()>(table, pass, word, &());
    let Some(pin) = Pin::unpack(found) else {
        unreachable!()
    };
    pin
}

/// Pins the next table to this epoch of current, where the pin still is the one that was found, of an older table. It
/// answers whether it was.
pub fn pin_step(table: &Table, pass: &mut Pass, control: &Control, epoch: u32, pin: Pin) -> bool
    requires of { IsPassOf table.now pass.old }
    requires bits { IsPin pin }
    requires may { (h : Help) × MayPin control.now h epoch pin (caller table.now pass.old) }
    ensures { Tried PinStep table.now pass.old pass.new (index table.now.start.layout pin_place) (pin_word pin) (pin_word (pin_of control.now epoch)) result }
{
    let word = table.start.layout.pin();
    let next = Pin {
        generation: control.generation + 1,
        epoch,
    };
    let old = pin.pack();
    let found = exchange_as::<Brand, (Control, u32, Pin)>(
        table,
        pass,
        word,
        old,
        next.pack(),
        &(*control, epoch, pin),
    );
    found == old
}

/// Leads current past the pin's epoch, where it still is this one, and answers whether it was.
pub fn pass_step(table: &Table, pass: &mut Pass, from: Current) -> bool
    requires of { IsPassOf table.now pass.old }
    requires may { (x : Control) × (h : Help) × (n : Pin) × MayPass x h n from (caller table.now pass.old) }
    ensures { Tried PassStep table.now pass.old pass.new (index table.now.start.layout current_place) (current_word from) (current_word (passed_from from)) result }
{
    let word = table.start.layout.current();
    let next = Current {
        epoch: from.epoch + 1,
        ..from
    };
    let old = from.pack();
    let found = exchange_as::<Brand, Current>(table, pass, word, old, next.pack(), &from);
    found == old
}

/// Opens the next table, where the control word still is that of the move, and answers whether it was.
pub fn finish_step(table: &Table, pass: &mut Pass, control: &Control) -> bool
    requires of { IsPassOf table.now pass.old }
    requires may { (h : Help) × (n : Pin) × (y : Current) × MayFinish control.now h n y (caller table.now pass.old) }
    ensures { Tried Finish table.now pass.old pass.new (index table.now.start.layout control_place) (control_word control.now) (control_word (opened_from control.now)) result }
{
    let word = table.start.layout.control();
    let next = Control {
        generation: control.generation + 1,
        moving: false,
        log: control.new_log,
        shift: control.new_shift,
        new_log: 0,
        new_shift: 0,
    };
    let old = control.pack();
    let found = exchange_as::<Brand, Control>(table, pass, word, old, next.pack(), control);
    found == old
}
