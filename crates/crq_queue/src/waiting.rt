//! The calls that wait: tries until one isn't refused for a while, and then settling.
ghost use Rattle.std.specs.Prelude.{◌≡◌, ◌⊎◌, IfErr, IsOk, None};
ghost use Rattle.crq_base.specs.declared.answers.Short.TheVariants.{Rows, Epochs};
ghost use Rattle.crq_rows.specs.Passes.{caller};
ghost use Rattle.crq_queue.specs.Wholes.{IsResting};
ghost use Rattle.crq_queue.specs.Calls.{OwesNothing, settles};
ghost use Rattle.crq_queue.specs.Waits.{MayPut, PutTried, TakeTried, SettleTried, PutWaited, TakeWaited, PutAdded, PutLeft, TakeAdded, Adds, short_of};

use crate::calendar::Calendar;
use crq_base::{Event, Refusal, Short, TakeEnd};
use crq_rows::Pass;
use std::sync::Wait;
use std::thread;

/// The budget of exchanges of each try. A call makes a handful of exchanges where it meets nobody, and one more for each
/// dead row on its way and for each that it loses. So one try is the common case; only a list full of dead rows, or other
/// callers that win again and again, make it two, and what a lost try costs is small beside so many exchanges.
const TRY_BUDGET: u32 = 1024;

/// Yields the processor after Held, since another caller has to go on before a try can help, and not after Again. None is to
/// try again; any other refusal is the answer of a call that waits.
fn short_after(refusal: Refusal) -> Option<Short>
    ensures { result ≡ short_of refusal }
{
    match refusal {
        Refusal::Again { .. } => None,
        Refusal::Held(_) => {
            thread::yield_now();
            None
        }
        Refusal::Rows => Some(Short::Rows),
        Refusal::Epochs => Some(Short::Epochs),
    }
}

impl Calendar {
    /// Tries to put an event until a try isn't refused for a while. The event may be left to settle.
    fn await_put<R: Wait>(&self, rt: &R, pass: &mut Pass, event: &Event) -> Result<(), Short>
        requires rests { IsResting self.now.table pass.old }
        requires fresh { MayPut self.now.table pass.old event.now }
        ensures tried { PutTried self.now.table event.now pass.old pass.new result }
        ensures left { PutLeft self.now.table event.now pass.old pass.new result }
        ensures rests { IsResting self.now.table pass.new }
    {
        for _ in rt.forever() {
            match self.try_put(pass, event, TRY_BUDGET) {
                Ok(_) => return Ok(()),
                Err(refusal) => {
                    if let Some(short) = short_after(refusal) {
                        return Err(short);
                    }
                }
            }
        }
        unreachable!()
    }

    /// Tries to take an event until a try isn't refused for a while. No event is left to settle.
    fn await_take<R: Wait>(&self, rt: &R, pass: &mut Pass, limit: u64) -> Result<TakeEnd, Short>
        requires rests { IsResting self.now.table pass.old }
        ensures tried { TakeTried self.now.table limit pass.old pass.new result }
        ensures added { TakeAdded self.now.table limit pass.old pass.new result }
        ensures rests { IsResting self.now.table pass.new }
        ensures settled { pass.new.debts.settle ≡ None }
        ensures ok { IsOk result }
    {
        for _ in rt.forever() {
            match self.try_take(pass, limit, TRY_BUDGET) {
                Ok(end) => return Ok(end),
                Err(refusal) => {
                    if let Some(short) = short_after(refusal) {
                        return Err(short);
                    }
                }
            }
        }
        unreachable!()
    }

    /// Tries to settle what the pass owes until it owes nothing. It adds the Settled of the event that was owed, if one was.
    fn await_settling<R: Wait>(&self, rt: &R, pass: &mut Pass)
        requires rests { IsResting self.now.table pass.old }
        ensures tried { SettleTried self.now.table pass.old pass.new }
        ensures added { Adds self.now.table pass.old pass.new (settles pass.old) }
        ensures idle { OwesNothing pass.old → caller self.now.table pass.new ≡ caller self.now.table pass.old }
    {
        for _ in rt.forever() {
            match self.try_settle(pass, TRY_BUDGET) {
                Ok(()) => return,
                Err(refusal) => {
                    if short_after(refusal).is_some() {
                        return;
                    }
                }
            }
        }
        unreachable!()
    }

    /// Puts an event, and waits while that is refused for a reason that other callers or one more try may end: it tries again
    /// after Again, and after Held it yields the processor first. The entries that it adds are the Settled of the event that the
    /// pass owed, if it owed one, and then Begins, at least one, the Put and its Settled. Where a try puts the event and leaves
    /// it to settle, it settles that before it returns. The pass owes nothing afterwards, whatever it owed before.
    ///
    /// After an error the event wasn't put, and beside the Settled of what was owed only Begins were added, at least one. Rows
    /// comes where no row is to be had: half as many events as the caller has rows, or more, were pending in the last try, and
    /// the pass keeps them for `gather`. Another call may be made at once, but it needs others to take events first. Epochs
    /// comes where the last try found current's epoch at 2^32 - 64 or above, and so was told of as many entries. It takes no
    /// memory.
    pub fn put<R: Wait>(&self, rt: &R, pass: &mut Pass, event: &Event) -> Result<(), Short>
        requires rests { IsResting self.now.table pass.old }
        requires fresh { MayPut self.now.table pass.old event.now }
        ensures waited { PutWaited self.now.table event.now pass.old pass.new result }
        ensures added { PutAdded self.now.table event.now pass.old pass.new result }
        ensures nothing { OwesNothing pass.new }
        ensures error { IfErr result (λ short. (short ≡ Rows) ⊎ (short ≡ Epochs)) }
    {
        let end = self.await_put(rt, pass, event);
        self.await_settling(rt, pass);
        end
    }

    /// Takes the least event below the limit, and waits while that is refused for a reason that other callers or one more try
    /// may end: it tries again after Again, and after Held it would yield the processor first, though a take needs no row and
    /// is never refused so. The entries that it adds are the Settled of the event that the pass owed, if it owed one, and then
    /// Begins, at least one, and the Take or, where there is no such event, the Miss. It cuts the row of the event, so the pass
    /// owes nothing afterwards, whatever it owed before.
    ///
    /// It answers no error, and takes no memory.
    pub fn take<R: Wait>(&self, rt: &R, pass: &mut Pass, limit: u64) -> Result<TakeEnd, Short>
        requires rests { IsResting self.now.table pass.old }
        ensures waited { TakeWaited self.now.table limit pass.old pass.new result }
        ensures added { TakeAdded self.now.table limit pass.old pass.new result }
        ensures nothing { OwesNothing pass.new }
        ensures ok { IsOk result }
    {
        let end = self.await_take(rt, pass, limit);
        self.await_settling(rt, pass);
        end
    }
}
