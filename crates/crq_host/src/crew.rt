//! The workers get the passes of their numbers, and give them back.

ghost use Rattle.std.specs.Prelude.{◌≡◌, ◌≤◌, length, map};
ghost use Rattle.crq_base.specs.declared.limits.TheConstants.{MOST_WORKERS};
ghost use Rattle.crq_set.specs.Gathered.{AreThere};
ghost use Rattle.crq_host.specs.Workers.{without_pass, AreIdle, HavePasses, views_of, AreLifted, AreNumbered, TellsShort, shorts_of};

use crate::worker::Worker;
use crq_base::Short;
use crq_set::EventSet;

/// Gives each worker the pass of its number.
pub(crate) fn lift_all<S: EventSet>(
    set: &S,
    passes: &mut S::Passes,
    workers: &mut [Worker<S::Pass>],
)
    requires of { S.are_of set.now passes.old }
    requires few { length workers.old ≤ MOST_WORKERS }
    requires count { length (S.places passes.old) ≡ length workers.old }
    requires there { AreThere (length workers.old) (S.places passes.old) }
    ensures of { S.are_of set.now passes.new }
    ensures lifted { AreLifted (length workers.old) (S.places passes.new) }
    ensures passes { HavePasses (S.is_of set.now) workers.new }
    ensures views { views_of S.view workers.new ≡ S.places passes.old }
    ensures rest { map without_pass workers.new ≡ map without_pass workers.old }
{
    let mut number = 0;
    for worker in workers.iter_mut() {
        worker.pass = Some(set.lift(passes, number));
        number += 1;
    }
}

/// Puts the pass of each worker that has one back in its place.
pub(crate) fn lower_all<S: EventSet>(
    set: &S,
    passes: &mut S::Passes,
    workers: &mut [Worker<S::Pass>],
)
    requires of { S.are_of set.now passes.old }
    requires lifted { AreLifted (length workers.old) (S.places passes.old) }
    requires passes { HavePasses (S.is_of set.now) workers.old }
    requires numbers { AreNumbered (views_of S.view workers.old) }
    ensures of { S.are_of set.now passes.new }
    ensures places { S.places passes.new ≡ views_of S.view workers.old }
    ensures idle { AreIdle workers.new }
    ensures rest { map without_pass workers.new ≡ map without_pass workers.old }
{
    for worker in workers.iter_mut() {
        if let Some(pass) = worker.pass.take() {
            set.lower(passes, pass);
        }
    }
}

/// Why the first worker that stopped did so, if one did.
pub(crate) fn first_short<P>(workers: &[Worker<P>]) -> Result<(), Short>
    ensures { TellsShort (shorts_of workers.now) result }
{
    for worker in workers {
        if let Some(short) = worker.short {
            return Err(short);
        }
    }
    Ok(())
}
