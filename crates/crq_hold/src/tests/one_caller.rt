//! Worked examples of a calendar that nobody uses, or one caller alone.

ghost use Rattle.std.specs.Prelude.{◌≡◌, [], OnOk};
ghost use Rattle.crq_base.specs.Sizes.{IsTeam};
ghost use Rattle.crq_set.specs.Gathered.{IsDealt};

use crate::tests::LIMIT;
use crq_base::{Event, First, Route, Short, TakeEnd, judge};
use crq_queue::{Calendar, CalendarMaker, Memory};
use crq_rows::Owes;
use crq_set::{EventSet, PlainMaker, SetMaker};
use std::alloc::Global;
use std::sync::Wait;
use std::test::Fail;

/// Makes a calendar, deals its passes twice, and closes it.
fn idle(alloc: Global, workers: u32) -> Result<(), Memory>
    requires { IsTeam workers }
{
    let first = First {
        epoch: 0,
        generation: 1,
        guard: 0,
    };
    let (calendar, whole) = Calendar::make(alloc, workers, 4, first)?;
    let passes = calendar.deal(whole, 1);
    let whole = calendar.gather(passes);
    let passes = calendar.deal(whole, 7);
    let whole = calendar.gather(passes);
    calendar.close(whole);
    Ok(())
}

#[test]
fn begins_and_ends(rt: HostRuntime) -> Result<(), Fail> {
    assert_eq!(rt; idle(rt.alloc(), 1), Ok(()));
    assert_eq!(rt; idle(rt.alloc(), 3), Ok(()));
    Ok(())
}

#[test]
fn waits_for_nobody(rt: HostRuntime) -> Result<(), Fail> {
    let (calendar, whole) = Calendar::make(rt.alloc(), 1, 4, First::of_program())?;
    let mut passes = calendar.deal(whole, 1);
    let mut pass = passes.lift(0);
    let event = Event {
        time: 3,
        src: 0,
        seq: 0,
        dst: 1,
        load: 7,
    };
    let taken = TakeEnd::Taken(event, Route::Bucket(3));
    assert_eq!(rt; calendar.put(&rt, &mut pass, &event), Ok(()));
    assert_eq!(rt; calendar.take(&rt, &mut pass, 3), Ok(TakeEnd::Missed));
    assert_eq!(rt; calendar.take(&rt, &mut pass, 4), Ok(taken));
    assert_eq!(rt; pass.owes(), Owes::Nothing);
    assert_eq!(rt; calendar.take(&rt, &mut pass, 4), Ok(TakeEnd::Missed));
    Ok(())
}

/// An event of source 0 by its time and number.
fn event(time: u32, seq: u64) -> Event
    ensures { result.seq ≡ seq }
{
    Event {
        time,
        src: 0,
        seq,
        dst: 1,
        load: 7,
    }
}

/// The event that a take took. How it was found is another matter with each set.
fn taken(end: TakeEnd) -> Option<Event> {
    match end {
        TakeEnd::Taken(event, _) => Some(event),
        TakeEnd::Missed => None,
    }
}

/// Puts two events with the one pass of any set that is empty, and takes three times.
fn put_and_take<R: Wait, S: EventSet>(
    rt: &R,
    set: &S,
    pass: &mut S::Pass,
) -> Result<[Option<Event>; 3], Short>
    requires of { S.is_of set.now pass.old }
    requires one { (S.setup set.now).workers ≡ 1 }
    requires dealt { IsDealt [] 1 0 (S.view pass.old) }
    ensures of { S.is_of set.now pass.new }
    ensures number { OnOk result ((S.view pass.new).number ≡ 0) }
{
    set.put(rt, pass, &event(9, 0))?;
    set.put(rt, pass, &event(3, 1))?;
    let first = set.take(rt, pass, LIMIT)?;
    let second = set.take(rt, pass, LIMIT)?;
    let third = set.take(rt, pass, LIMIT)?;
    Ok([taken(first), taken(second), taken(third)])
}

/// By any maker, makes a set for one caller, puts and takes there, and closes it.
fn used_alone<R: Wait, M: SetMaker>(
    rt: &R,
    maker: &mut M,
    alloc: Global,
) -> Result<[Option<Event>; 3], Short>
where
    M::Set: Drop,
{
    let Ok((set, whole)) = maker.make(alloc, 1, 4) else {
        return Err(Short::Memory);
    };
    let mut passes = set.deal(whole, 1);
    let mut pass = set.lift(&mut passes, 0);
    let ends = put_and_take(rt, &set, &mut pass)?;
    set.lower(&mut passes, pass);
    let whole = set.gather(passes);
    maker.close(set, whole);
    Ok(ends)
}

#[test]
fn a_calendar_answers_as_a_plain_set(rt: HostRuntime) -> Result<(), Fail> {
    let alloc = rt.alloc();
    let ends = [Some(event(3, 1)), Some(event(9, 0)), None];
    let mut calendars = CalendarMaker::new(alloc);
    let mut plain = PlainMaker::new(alloc);
    assert_eq!(rt; used_alone(&rt, &mut calendars, alloc), Ok(ends));
    assert_eq!(rt; used_alone(&rt, &mut plain, alloc), Ok(ends));
    let history = plain.last().unwrap_or(&[]);
    assert_eq!(rt; history.len(), 12);
    assert_eq!(rt; judge(history), Ok(()));
    Ok(())
}
