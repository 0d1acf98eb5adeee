//! The call that takes.
ghost use Rattle.std.specs.Prelude.{◌≡◌, ◌≤◌, ◌<◌, ◌^◌, ℕ, Some, None, drop};
ghost use Rattle.crq_base.specs.Words.{current_word};
ghost use Rattle.crq_rule.specs.HistoryParts.{EndsInBegin};
ghost use Rattle.crq_rule.specs.Places.{index, current as current_place};
ghost use Rattle.crq_rule.specs.Ranks.{shape_of, bucket};
ghost use Rattle.crq_rows.specs.Passes.{caller, IsPassOf};
ghost use Rattle.crq_rows.specs.Known.{last_known};
ghost use Rattle.crq_list.specs.declared.parts.Place.TheVariants.{Search};
ghost use Rattle.crq_list.specs.Taking.{SeesPlace};
ghost use Rattle.crq_queue.specs.Wholes.{IsResting};
ghost use Rattle.crq_queue.specs.Runs.{MayRun, IsInside};
ghost use Rattle.crq_queue.specs.Calls.{TakeAnswers, call};
ghost use Rattle.crq_queue.specs.Stages.{WalkedOut, RaiseEnded, RoundEnded, SearchEnded, EventTaken};

use crate::calendar::Calendar;
use crate::runs::{Spent, enter, leave, take_within};
use crq_base::{Control, Current, Event, Refusal, Route, TakeEnd};
use crq_current::{current_step, next_position, raise_step};
use crq_list::{CutOp, MarkEnd, Place, TakeOp, miss_step};
use crq_rows::Pass;

/// How a round of a take ends.
#[derive(Clone, Copy)]
pub(crate) enum Round {
    /// This event was marked in the list of the bucket of this tick, at which current was found. The cut of its row is owed.
    Marked(Event, u32, CutOp),
    /// No event is below the limit.
    Missed,
    /// Nothing was taken, and so many raises in a row are made.
    On(u32),
}

/// An event that a take marked, and how it was found. The cut of its row is owed.
#[derive(Clone, Copy)]
pub(crate) struct Caught {
    /// The event.
    pub event: Event,
    /// How it was found.
    pub route: Route,
    /// The cut of its row.
    pub cut: CutOp,
}

impl Calendar {
    /// Raises current to the next bucket from where the take found it, once the take has walked its bucket to the end. A take
    /// past the last bucket has missed.
    #[inline(always)]
    fn raise(
        &self,
        pass: &mut Pass,
        control: &Control,
        current: Current,
        raises: u32,
        budget: u32,
    ) -> Result<Round, Spent>
        requires of { IsPassOf self.now.table pass.old }
        requires walked { WalkedOut self.now.table control.now current pass.old }
        requires few { raises < 2 ^ control.now.log }
        requires within { pass.old.turns ≤ budget }
        ensures { (n : ℕ) → MayRun self.now.table n budget pass.old → last_known (drop n (caller self.now.table pass.old).made) (index self.now.table.start.layout current_place) ≡ Some (current_word current)
            → RaiseEnded self.now.table n budget control.now raises pass.old pass.new result }
    {
        let Some(to) = next_position(control, current) else {
            return Ok(Round::Missed);
        };
        if pass.turns >= budget {
            return Err(Spent);
        }
        if raise_step(&self.table, pass, control, current, to) {
            Ok(Round::On(raises + 1))
        } else {
            Ok(Round::On(0))
        }
    }

    /// Takes the first event of current's bucket, or raises current where that has none, after so many raises in a row.
    #[inline(always)]
    fn round(
        &self,
        pass: &mut Pass,
        control: &Control,
        limit: u64,
        raises: u32,
        budget: u32,
    ) -> Result<Round, Spent>
        requires of { IsPassOf self.now.table pass.old }
        requires inside { IsInside self.now.table control.now pass.old }
        requires began { EndsInBegin (caller self.now.table pass.old).own }
        requires free { pass.old.debts.cut ≡ None }
        requires one { pass.old.debts.second_cut ≡ None }
        requires few { raises < 2 ^ control.now.log }
        requires within { pass.old.turns ≤ budget }
        ensures { (n : ℕ) → MayRun self.now.table n budget pass.old → RoundEnded self.now.table n budget control.now limit raises pass.old pass.new result }
    {
        let current = current_step(&self.table, pass, true);
        if u64::from(current.tick) >= limit {
            return Ok(Round::Missed);
        }
        let place = Place::Bucket(current.tick >> control.shift);
        let op = TakeOp::new(*control, place, limit);
        match take_within(&self.table, pass, op, budget)? {
            MarkEnd::Marked(_, event, cut) => Ok(Round::Marked(event, current.tick, cut)),
            MarkEnd::Beyond(_) => Ok(Round::Missed),
            MarkEnd::Nothing => self.raise(pass, control, current, raises, budget),
            MarkEnd::Lost => Ok(Round::On(raises)),
            MarkEnd::Frozen => unreachable!(),
        }
    }

    /// Takes the least event of all lists below the limit, after so many raises in a row.
    fn search(
        &self,
        pass: &mut Pass,
        control: &Control,
        limit: u64,
        raises: u32,
        budget: u32,
    ) -> Result<Option<Caught>, Spent>
        requires of { IsPassOf self.now.table pass.old }
        requires inside { IsInside self.now.table control.now pass.old }
        requires began { EndsInBegin (caller self.now.table pass.old).own }
        requires free { pass.old.debts.cut ≡ None }
        requires one { pass.old.debts.second_cut ≡ None }
        requires sees { SeesPlace control.now Search (caller self.now.table pass.old) }
        requires within { pass.old.turns ≤ budget }
        ensures { (n : ℕ) → MayRun self.now.table n budget pass.old → SearchEnded self.now.table n budget control.now limit raises pass.old pass.new result }
    {
        loop {
            let op = TakeOp::new(*control, Place::Search, limit);
            match take_within(&self.table, pass, op, budget)? {
                MarkEnd::Marked(_, event, cut) => {
                    let route = Route::Search(raises);
                    return Ok(Some(Caught { event, route, cut }));
                }
                MarkEnd::Lost => {}
                _ => {
                    miss_step(&self.table, pass, limit);
                    return Ok(None);
                }
            }
        }
    }

    /// Takes an event below the limit, while the guard is on. None where there is no such event. It goes from bucket to bucket,
    /// and once it has raised current as often in a row as there are buckets, it searches all lists.
    #[inline(always)]
    fn catch(
        &self,
        pass: &mut Pass,
        control: &Control,
        limit: u64,
        budget: u32,
    ) -> Result<Option<Caught>, Spent>
        requires of { IsPassOf self.now.table pass.old }
        requires inside { IsInside self.now.table control.now pass.old }
        requires began { EndsInBegin (caller self.now.table pass.old).own }
        requires free { pass.old.debts.cut ≡ None }
        requires one { pass.old.debts.second_cut ≡ None }
        requires within { pass.old.turns ≤ budget }
        ensures { (n : ℕ) → MayRun self.now.table n budget pass.old → EventTaken self.now.table n budget control.now limit pass.old pass.new result }
    {
        let mut raises = 0;
        loop {
            match self.round(pass, control, limit, raises, budget)? {
                Round::Marked(event, tick, cut) => {
                    let route = Route::Bucket(tick);
                    return Ok(Some(Caught { event, route, cut }));
                }
                Round::Missed => {
                    miss_step(&self.table, pass, limit);
                    return Ok(None);
                }
                Round::On(made) => {
                    if made == 1 << control.log {
                        return self.search(pass, control, limit, made, budget);
                    }
                    raises = made;
                }
            }
        }
    }

    /// Takes an event below the limit within a budget of exchanges. It first finishes what the pass owes, an event to settle and
    /// then a dead row to cut, which adds the Settled of that event, and only then begins. The entries that it adds since are a
    /// Begin, and the Take or the Miss. The pass owes nothing afterwards, but where the budget ended between the mark of the
    /// event's row and its cut: then it owes the cut of that row.
    ///
    /// The event was found in the list of the bucket at which current was found last, and isn't of a later bucket; or this call
    /// raised current as often in a row as there are buckets, and then a search of all lists found it to be the least.
    ///
    /// Its one refusal is Again, where the budget is used up and one more exchange is needed. Where that is for what was owed,
    /// no Begin was added, and the pass still owes what isn't finished; else the Begin alone was added, and it owes nothing.
    pub fn try_take(&self, pass: &mut Pass, limit: u64, budget: u32) -> Result<TakeEnd, Refusal>
        requires rests { IsResting self.now.table pass.old }
        requires budget { 1 ≤ budget }
        ensures { TakeAnswers (call self.now.table budget pass.old) limit pass.new result }
    {
        let again = Refusal::Again { turns: budget };
        let Ok(control) = self.begin(pass, budget) else {
            return Err(again);
        };
        enter(&self.table, pass);
        let end = match self.catch(pass, &control, limit, budget) {
            Ok(Some(caught)) => {
                let _owed = self.cut_owed(pass, caught.cut, budget);
                Ok(TakeEnd::Taken(caught.event, caught.route))
            }
            Ok(None) => Ok(TakeEnd::Missed),
            Err(Spent) => Err(again),
        };
        leave(&self.table, pass);
        end
    }
}
