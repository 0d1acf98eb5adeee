//! A worker of the hold model.
ghost use Rattle.std.specs.Prelude.{◌≤◌, ◌<◌, ◌-◌, ◌^◌};
ghost use Rattle.crq_queue.specs.Wholes.{IsResting};
ghost use Rattle.crq_queue.specs.Calls.{call, OwesNothing, PutAnswers, TakeAnswers};
ghost use Rattle.crq_queue.specs.Waits.{PutAdded, TakeAdded};
ghost use Rattle.crq_hold.specs.Waiting.{waited_puts, waited_takes};
ghost use Rattle.crq_hold.specs.Workers.{IsWorker, IsSettled, PutAndTook, next_event, puts_of, takes_of};

use crq_base::{Event, Short};
use crq_queue::{Calendar, Pass, PutEnd, Refusal, TakeEnd};
use std::sync::Wait;

/// A caller that puts events of its own source, whose number is that of its pass.
#[derive(Drop)]
pub struct Worker {
    /// Its pass.
    pub pass: Pass,
    /// The number of its next event. Each event of its source that its pass has seen put has a lesser one.
    pub next: u64,
    /// How many holds it has made.
    pub holds: u64,
}

impl Worker {
    /// Puts an event with the next number of the worker's source, within a budget of exchanges. It answers as the queue does,
    /// and an event that is still to be settled was put, too; where it is refused the number stays. Epochs comes, without a call, where the numbers are used up.
    pub fn put(
        &mut self,
        queue: &Calendar,
        time: u32,
        load: u64,
        budget: u32,
    ) -> Result<PutEnd, Refusal>
        requires worker { IsWorker queue.now.table self.old }
        requires budget { 1 ≤ budget }
        ensures counts { PutAndTook queue.now.table self.old self.new (puts_of result) 0 }
        ensures answers { self.old.next < 2 ^ 64 - 1 → PutAnswers (call queue.now.table budget self.old.pass) (next_event self.old time load) self.new.pass result }
    {
        if self.next == u64::MAX {
            return Err(Refusal::Epochs);
        }
        let event = Event {
            time,
            src: self.pass.number,
            seq: self.next,
            dst: 1,
            load,
        };
        let end = queue.try_put(&mut self.pass, &event, budget)?;
        self.next += 1;
        Ok(end)
    }

    /// Puts an event with the next number of the worker's source, and waits while that is refused for a while. It answers as
    /// the queue does; where that is an error the number stays. Epochs comes, without a call, where the numbers are used up.
    pub fn put_waiting<R: Wait>(
        &mut self,
        rt: &R,
        queue: &Calendar,
        time: u32,
        load: u64,
    ) -> Result<(), Short>
        requires { IsWorker queue.now.table self.old }
        ensures counts { PutAndTook queue.now.table self.old self.new (waited_puts result) 0 }
        ensures added { self.old.next < 2 ^ 64 - 1 → PutAdded queue.now.table (next_event self.old time load) self.old.pass self.new.pass result }
        ensures nothing { self.old.next < 2 ^ 64 - 1 → OwesNothing self.new.pass }
        ensures settled { IsSettled self.old → IsSettled self.new }
    {
        if self.next == u64::MAX {
            return Err(Short::Epochs);
        }
        let event = Event {
            time,
            src: self.pass.number,
            seq: self.next,
            dst: 1,
            load,
        };
        let end = queue.put(rt, &mut self.pass, &event)?;
        self.next = event.seq + 1;
        Ok(end)
    }

    /// Takes the least event below the limit, within a budget of exchanges.
    pub fn take(&mut self, queue: &Calendar, limit: u64, budget: u32) -> Result<TakeEnd, Refusal>
        requires rests { IsResting queue.now.table self.old.pass }
        requires budget { 1 ≤ budget }
        ensures rests { IsResting queue.now.table self.new.pass }
        ensures counts { IsWorker queue.now.table self.old → PutAndTook queue.now.table self.old self.new 0 (takes_of result) }
        ensures answers { TakeAnswers (call queue.now.table budget self.old.pass) limit self.new.pass result }
    {
        queue.try_take(&mut self.pass, limit, budget)
    }

    /// Takes the least event below the limit, and waits while that is refused for a while.
    pub fn take_waiting<R: Wait>(
        &mut self,
        rt: &R,
        queue: &Calendar,
        limit: u64,
    ) -> Result<TakeEnd, Short>
        requires { IsResting queue.now.table self.old.pass }
        ensures rests { IsResting queue.now.table self.new.pass }
        ensures counts { IsWorker queue.now.table self.old → PutAndTook queue.now.table self.old self.new 0 (waited_takes result) }
        ensures added { TakeAdded queue.now.table limit self.old.pass self.new.pass result }
        ensures nothing { OwesNothing self.new.pass }
    {
        queue.take(rt, &mut self.pass, limit)
    }
}
