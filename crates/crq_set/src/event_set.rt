//! A set of pending events that several callers share.

ghost use Rattle.std.specs.Prelude.{◌≡◌, ◌≤◌, List, Option, Some, None, IfOk, IfErr, OnOk, slice_get, slice_set};
ghost use Rattle.crq_base.specs.declared.entry.Entry.{Entry};
ghost use Rattle.crq_set.specs.Views.{PassView, Setup, MayPut};
ghost use Rattle.crq_set.specs.Answers.{Puts, Takes, PutGaveUp, TakeGaveUp};
ghost use Rattle.crq_set.specs.Gathered.{AreThere, Gathers, Deals};

use crq_base::{Event, Short, TakeEnd};
use std::sync::Wait;

/// A set of pending events that several callers share, each by a pass of its own.
///
/// All calls together have one history, of which each pass knows what was dealt to it and its own entries since. A call of a
/// pass may run beside those of other passes.
pub trait EventSet: Sync {
    /// A caller's token.
    type Pass: Send + Drop;

    /// The passes of all callers, each in the place of its number from 0, or lifted.
    type Passes: Send + Drop;

    /// All passes made one: nobody is at work, and the history stands still.
    type Whole: Send + Drop;

    /// With what the set was made.
    ghost setup: { Self → Setup };

    /// What is known of a pass.
    ghost view: { Self.Pass → PassView };

    /// The pass is of this set and between two calls. It may have work left that no other caller waits for.
    ghost is_of: { Self → Self.Pass → Type 0 };

    /// What is known of the passes, by number. `None` is a pass that was lifted.
    ghost places: { Self.Passes → List (Option PassView) };

    /// The passes are of this set.
    ghost are_of: { Self → Self.Passes → Type 0 };

    /// The history.
    ghost history: { Self.Whole → List Entry };

    /// The whole is of this set.
    ghost is_whole: { Self → Self.Whole → Type 0 };

    /// Puts an event. It waits while it is refused for a reason that other callers may end. The entries that it adds are one
    /// or more Begins, the Put and its Settled.
    ///
    /// After an error nothing of the event was put, and Begins alone were added. Rows comes only where half as many events
    /// as the caller has rows, or more, were put and not taken before the last of these Begins; the pass keeps them for
    /// `gather`. Epochs comes only where the history has as many Settled and Table entries as the epoch of current has room
    /// for. Memory comes where the set's own growth was refused; then nothing was added at all.
    fn put<R: Wait>(&self, rt: &R, pass: &mut Self::Pass, event: &Event) -> Result<(), Short>
        requires of { is_of self.now pass.old }
        requires may { MayPut (setup self.now) (view pass.old) event.now }
        ensures of { is_of self.now pass.new }
        ensures puts { OnOk result (Puts (view pass.old) (view pass.new) event.now) }
        ensures gave_up { IfErr result (PutGaveUp (setup self.now) (view pass.old) (view pass.new)) };

    /// Takes the least event below the limit, a time. It waits while it is refused for a reason that other callers may end.
    /// The entries that it adds are one or more Begins, and the Take or, where there is no such event, the Miss.
    ///
    /// After an error nothing was taken, and Begins alone were added. Rows comes only as for `put`, and Epochs never. Memory
    /// comes where the set's own growth was refused; then nothing was added at all.
    fn take<R: Wait>(&self, rt: &R, pass: &mut Self::Pass, limit: u64) -> Result<TakeEnd, Short>
        requires of { is_of self.now pass.old }
        ensures of { is_of self.now pass.new }
        ensures takes { IfOk result (Takes (view pass.old) (view pass.new) limit) }
        ensures gave_up { IfErr result (TakeGaveUp (setup self.now) (view pass.old) (view pass.new)) };

    /// Makes one of all passes. It tells the one legal history that all calls made together, and of each pass what it kept.
    fn gather(&self, passes: Self::Passes) -> Self::Whole
        requires of { are_of self.now passes }
        requires there { AreThere (setup self.now).workers (places passes) }
        ensures of { is_whole self.now result }
        ensures gathers { Gathers (setup self.now).workers (places passes) (history result) };

    /// Makes a pass for each caller, each with the same history. Each may put events of `span` sources in a row, the pass
    /// `j` those from `j * span` on, and the last one those of all greater sources too.
    fn deal(&self, whole: Self::Whole, span: u32) -> Self::Passes
        requires of { is_whole self.now whole }
        requires span { 1 ≤ span }
        ensures of { are_of self.now result }
        ensures deals { Deals (setup self.now).workers (history whole) span (places result) };

    /// Takes a pass out of its place. All other places stay.
    fn lift(&self, passes: &mut Self::Passes, number: u32) -> Self::Pass
        requires of { are_of self.now passes.old }
        requires there { (v : PassView) × (slice_get (places passes.old) number ≡ Some (Some v)) }
        ensures of { is_of self.now result }
        ensures rest { are_of self.now passes.new }
        ensures was { slice_get (places passes.old) number ≡ Some (Some (view result)) }
        ensures lifted { places passes.new ≡ slice_set (places passes.old) number None };

    /// Puts a pass back in the place of its number. All other places stay.
    fn lower(&self, passes: &mut Self::Passes, pass: Self::Pass)
        requires of { are_of self.now passes.old }
        requires pass { is_of self.now pass }
        requires empty { slice_get (places passes.old) (view pass).number ≡ Some None }
        ensures of { are_of self.now passes.new }
        ensures lowered { places passes.new ≡ slice_set (places passes.old) (view pass).number (Some (view pass)) };
}
