//! Cutting dead rows out of a list.
ghost use Rattle.std.specs.Prelude.{◌≡◌, ◌==◌, ℕ, Some, true, false};
ghost use Rattle.crq_rows.specs.Passes.{IsPassOf};
ghost use Rattle.crq_list.specs.declared.seek.SeekState.TheVariants.{Load};
ghost use Rattle.crq_list.specs.declared.parts.Spot.TheVariants.{Head};
ghost use Rattle.crq_list.specs.Seeking.{seek_exchanges};
ghost use Rattle.crq_list.specs.Operations.{IsUnderWay, MakesStep, MakesSteps};
ghost use Rattle.crq_list.specs.Cutting.{the_cut, cut_begins, follows, progress_of};

use crate::parts::{Before, ListAt, Progress, Spot};
use crate::seek::{SeekEnd, SeekState, Sought, cut_row};
use crate::stretch::run_seek;
use crq_base::{Event, Link, Mark};
use crq_rows::{Pass, Table};

/// How a cut ends.
#[derive(Clone, Copy, Debug, PartialEq, Eq)]
pub enum CutEnd {
    /// The list was walked from its head up to the row asked for, and without one to its end, by this cut or by the take
    /// that marked that row. Each row on the way was present, or not valid yet, when its link was loaded: each dead one that
    /// was met was cut and retired before the walk went on. If the pass owed the row asked for, it doesn't any more.
    Clean,
    /// The walk found a head or row frozen, or a head of another table, in a table that may move. No row is cut and not retired.
    Frozen,
}

/// Cuts dead rows out of a list, one atomic step at a time: up to a row of an event, or all of them. Each is retired before
/// the next is cut.
#[derive(Clone, Copy)]
pub struct CutOp {
    /// The list, and up to which row of which event; none is the whole list.
    pub sought: Sought,
    /// How far it is.
    pub state: SeekState,
    /// Whether the list was swept past the row asked for while that was present. Then nothing is left to do once the row is
    /// retired. It is given up where the row isn't cut at the link at which the cut began.
    pub swept: bool,
}

/// What a step of the walk says of the cut.
#[inline(always)]
fn progress_of(walked: Progress<SeekEnd>) -> Progress<CutEnd>
    ensures { result ≡ progress_of walked }
{
    match walked {
        Progress::More => Progress::More,
        Progress::Done(SeekEnd::There(_)) => Progress::Done(CutEnd::Clean),
        Progress::Done(SeekEnd::Frozen) => Progress::Done(CutEnd::Frozen),
    }
}

/// Whether a walk that was at the first state before a step, and is at the second after it, is on its way from a dead row to
/// the retirement of that row.
#[inline(always)]
fn follows(before: &SeekState, after: &SeekState) -> bool
    ensures { result ≡ follows before.now after.now }
{
    match before {
        SeekState::Passing(_) => matches!(after, SeekState::Cutting(_, _)),
        SeekState::Cutting(_, _) => matches!(after, SeekState::Tagging(_, _)),
        SeekState::Tagging(_, _) => matches!(after, SeekState::Retiring(_, _, _)),
        _ => false,
    }
}

impl CutOp {
    /// A cut that has made no step.
    pub fn new(list: ListAt, upto: Option<(Event, u32)>) -> CutOp
        ensures { result ≡ record { sought = record { list = list; target = upto }; state = Load (Head list.head); swept = false } }
    {
        CutOp {
            sought: Sought { list, target: upto },
            state: SeekState::Load(Spot::Head(list.head)),
            swept: false,
        }
    }

    /// The cut of a row that a take marked, whose walk found the list's head to name the row `first`. If that is the marked
    /// row, then the cut is tried at the head's link as it was found, and ends once the row is retired. Else, or where the
    /// link isn't that any more, it walks the list from its head.
    #[inline(always)]
    pub(crate) fn after(list: ListAt, event: Event, row: u32, first: u32) -> CutOp
        ensures { result ≡ record { sought = record { list = list; target = Some (event, row) }; state = cut_begins list row first; swept = first == row } }
    {
        if first != row {
            return CutOp::new(list, Some((event, row)));
        }
        let link = Link {
            generation: list.generation,
            row,
            mark: Mark::Val,
        };
        let spot = Spot::Head(list.head);
        CutOp {
            sought: Sought {
                list,
                target: Some((event, row)),
            },
            state: SeekState::Passing(Before { spot, link }),
            swept: true,
        }
    }

    /// Whether the next step is an exchange.
    pub fn exchanges(&self) -> bool
        ensures { result ≡ seek_exchanges self.now.state }
    {
        self.state.exchanges()
    }

    /// Makes one atomic step, where the list was swept past the row asked for.
    #[inline(always)]
    fn step_swept(&mut self, table: &Table, pass: &mut Pass) -> Progress<CutEnd>
        requires of { IsPassOf table.now pass.old }
        requires swept { self.old.swept ≡ true }
        requires op { IsUnderWay the_cut table.now (self.old, pass.old) }
        ensures { MakesStep the_cut table.now (self.old, pass.old) (self.new, pass.new) result }
    {
        let before = self.state;
        let walked = self.state.step_on_way(table, pass, &self.sought);
        if let SeekState::Retiring(_, _, _) = before {
            return Progress::Done(CutEnd::Clean);
        }
        self.swept = follows(&before, &self.state);
        progress_of(walked)
    }

    /// Makes one atomic step.
    #[inline(always)]
    pub fn step(&mut self, table: &Table, pass: &mut Pass) -> Progress<CutEnd>
        requires of { IsPassOf table.now pass.old }
        requires op { IsUnderWay the_cut table.now (self.old, pass.old) }
        ensures { MakesStep the_cut table.now (self.old, pass.old) (self.new, pass.new) result }
    {
        if self.swept {
            return self.step_swept(table, pass);
        }
        progress_of(self.state.step(table, pass, &self.sought))
    }

    /// Makes one atomic step or more, of which only the first may be an exchange: those that mostly follow on one another.
    #[inline(always)]
    pub fn run(&mut self, table: &Table, pass: &mut Pass) -> Progress<CutEnd>
        requires of { IsPassOf table.now pass.old }
        requires op { IsUnderWay the_cut table.now (self.old, pass.old) }
        ensures { MakesSteps the_cut table.now (self.old, pass.old) (self.new, pass.new) result }
    {
        if self.swept {
            return self.step_swept(table, pass);
        }
        if let SeekState::Cutting(before, last) = self.state {
            let (state, walked) = cut_row(table, pass, &self.sought, before, last);
            self.state = state;
            return progress_of(walked);
        }
        progress_of(run_seek(table, pass, &self.sought, &mut self.state))
    }
}
