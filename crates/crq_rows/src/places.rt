//! The passes of all callers.
ghost use Rattle.std.specs.Prelude.{◌≡◌, slice_get, slice_set, Some};
ghost use Rattle.crq_rule.specs.declared.pass.Pass.{Pass};
ghost use Rattle.crq_rule.specs.declared.pass.Rest.{Rest};
ghost use Rattle.crq_rule.specs.declared.pass.Seating.TheVariants.{Here, Resting, Lifted};

use atomic_table::Seat;
use crq_rule::{Pass, Rest, Seating, View};
use std::mem;

/// The passes of all callers, each in the place of its number, or lifted.
#[derive(Drop)]
pub struct Passes {
    /// A place for each caller.
    pub places: Vec<Seating>,
}

impl Passes {
    /// Takes a pass out of its place.
    pub fn lift(&mut self, number: u32) -> Pass
        requires { (pass : Pass) × (slice_get self.old.places.items number ≡ Some (Here pass)) }
        ensures was { slice_get self.old.places.items number ≡ Some (Here result) }
        ensures now { self.new.places.items ≡ slice_set self.old.places.items number Lifted }
    {
        let Seating::Here(pass) = mem::replace(&mut self.places[number as usize], Seating::Lifted)
        else {
            unreachable!()
        };
        pass
    }

    /// Puts a pass back in the place of its number.
    pub fn lower(&mut self, pass: Pass)
        requires { slice_get self.old.places.items pass.number ≡ Some Lifted }
        ensures { self.new.places.items ≡ slice_set self.old.places.items pass.number (Here pass) }
    {
        let number = pass.number;
        self.places[number as usize] = Seating::Here(pass);
    }

    /// Takes the seat of a pass, and lets its caller rest.
    pub fn rest(&mut self, number: u32) -> Seat<(), View>
        requires { (pass : Pass) × (slice_get self.old.places.items number ≡ Some (Here pass)) }
        ensures { (pass : Pass) × (slice_get self.old.places.items number ≡ Some (Here pass)) × (result ≡ pass.seat)
            × (self.new.places.items ≡ slice_set self.old.places.items number (Resting (record { free = pass.free; debts = pass.debts }))) }
    {
        let Pass {
            seat,
            number: _,
            free,
            debts,
            turns: _,
        } = self.lift(number);
        self.places[number as usize] = Seating::Resting(Rest { free, debts });
        seat
    }

    /// Makes the pass of a caller that rests.
    pub fn wake(&mut self, number: u32, seat: Seat<(), View>)
        requires { (rest : Rest) × (slice_get self.old.places.items number ≡ Some (Resting rest)) }
        ensures { (rest : Rest) × (slice_get self.old.places.items number ≡ Some (Resting rest))
            × (self.new.places.items ≡ slice_set self.old.places.items number (Here (record { seat = seat; number = number; free = rest.free; debts = rest.debts; turns = 0 }))) }
    {
        let Seating::Resting(rest) = mem::replace(
            &mut self.places[number as usize],
            Seating::Lifted,
        ) else {
            unreachable!()
        };
        self.places[number as usize] = Seating::Here(Pass {
            seat,
            number,
            free: rest.free,
            debts: rest.debts,
            turns: 0,
        });
    }
}
