//! A plain set by its one caller, and its maker.

ghost use Rattle.std.specs.Prelude.{◌≡◌, ◌≤◌, ◌+◌, ◌++◌, ◌∷◌, [], ℕ, None, IsTrue, OnOk, IfOk};
ghost use Rattle.std.specs.List.{All};
ghost use Rattle.crq_base.specs.declared.event.Event.{Event};
ghost use Rattle.crq_base.specs.declared.entry.Entry.TheVariants.{Put};
ghost use Rattle.crq_base.specs.Lists.{In};
ghost use Rattle.crq_set.specs.Gathered.{AreThere};

use crq_base::{Entry, Event, Memory, Route, Short, TakeEnd, judge};
use crq_set::{EventSet, PlainMaker, PlainPass, PlainPasses, PlainSet, PlainWhole, SetMaker};
use std::alloc::Global;
use std::sync::Wait;
use std::test::Fail;

/// A limit above the time of each event.
const LIMIT: u64 = 1 << 32;

/// An event by its key.
fn event(time: u32, src: u32, seq: u64) -> Event {
    Event {
        time,
        src,
        seq,
        dst: 1,
        load: 0,
    }
}

/// The answer of a take that took the event with this key.
fn taken(time: u32, src: u32, seq: u64) -> TakeEnd {
    TakeEnd::Taken(event(time, src, seq), Route::Bucket(0))
}

/// Whether the entry doesn't put an event of this source and number.
fn is_other(entry: &Entry, event: &Event) -> bool
    ensures { IsTrue result → (k : ℕ) (f : Event) → entry.now ≡ Put k f → f.src ≡ event.now.src → f.seq ≡ event.now.seq → ⊥ }
{
    match entry {
        Entry::Put(_, put) => put.src != event.src || put.seq != event.seq,
        _ => true,
    }
}

/// Whether no entry puts an event of this source and number.
fn is_new(entries: &[Entry], event: &Event) -> bool
    ensures { IsTrue result → All (λ x. (k : ℕ) (f : Event) → x ≡ Put k f → f.src ≡ event.now.src → f.seq ≡ event.now.seq → ⊥) entries.now }
{
    entries.iter().all(|entry| is_other(entry, event))
}

/// Puts an event that is new to the pass, and answers None of any other one.
fn put_new<R: Wait>(
    rt: &R,
    set: &PlainSet,
    pass: &mut PlainPass,
    event: Event,
) -> Option<Result<(), Short>>
    requires { ⟦<PlainSet as EventSet>⟧.is_of set.now pass.old }
    ensures { ⟦<PlainSet as EventSet>⟧.is_of set.now pass.new }
{
    if !is_new(pass.seen(), &event) {
        return None;
    }
    Some(set.put(rt, pass, &event))
}

/// Puts a new event. Where memory was refused and nothing was added it tries once more.
fn put<R: Wait>(
    rt: &R,
    set: &PlainSet,
    pass: &mut PlainPass,
    event: Event,
) -> Option<Result<(), Short>>
    requires { ⟦<PlainSet as EventSet>⟧.is_of set.now pass.old }
    ensures { ⟦<PlainSet as EventSet>⟧.is_of set.now pass.new }
{
    let seen = pass.seen().len();
    let end = put_new(rt, set, pass, event);
    if end == Some(Err(Short::Memory)) && pass.seen().len() == seen {
        return put_new(rt, set, pass, event);
    }
    end
}

/// Takes the least event below the limit. Where memory was refused and nothing was added it tries once more.
fn take<R: Wait>(rt: &R, set: &PlainSet, pass: &mut PlainPass, limit: u64) -> Result<TakeEnd, Short>
    requires { ⟦<PlainSet as EventSet>⟧.is_of set.now pass.old }
    ensures { ⟦<PlainSet as EventSet>⟧.is_of set.now pass.new }
{
    let seen = pass.seen().len();
    let end = set.take(rt, pass, limit);
    if end == Err(Short::Memory) && pass.seen().len() == seen {
        return set.take(rt, pass, limit);
    }
    end
}

/// An empty set and the place of its one pass, which was dealt so many sources in a row. Where memory is refused it tries
/// once more.
fn alone(
    maker: &mut PlainMaker,
    alloc: Global,
    span: u32,
) -> Result<(PlainSet, PlainPasses), Memory>
    requires span { 1 ≤ span }
    ensures of { IfOk result (λ made. ⟦<PlainSet as EventSet>⟧.are_of made.0 made.1) }
    ensures there { IfOk result (λ made. AreThere 1 (⟦<PlainSet as EventSet>⟧.places made.1)) }
    ensures room { OnOk result (1 ≤ ⟦<PlainMaker as SetMaker>⟧.room maker.new) }
{
    let (set, whole) = match maker.make(alloc, 1, 4) {
        Ok(made) => made,
        Err(Memory) => maker.make(alloc, 1, 4)?,
    };
    let passes = set.deal(whole, span);
    Ok((set, passes))
}

/// Puts the pass back, and makes one of all passes.
fn gathered(set: &PlainSet, mut passes: PlainPasses, pass: PlainPass) -> PlainWhole
    requires of { ⟦<PlainSet as EventSet>⟧.is_of set.now pass }
    requires places { ⟦<PlainSet as EventSet>⟧.places passes ≡ None ∷ [] }
    ensures { ⟦<PlainSet as EventSet>⟧.is_whole set.now result }
{
    set.lower(&mut passes, pass);
    set.gather(passes)
}

#[test]
fn takes_the_least_key(rt: HostRuntime) -> Result<(), Fail> {
    let mut maker = PlainMaker::new(rt.alloc());
    let (set, mut passes) = alone(&mut maker, rt.alloc(), 7)?;
    let mut pass = set.lift(&mut passes, 0);
    for new in [
        event(9, 0, 0),
        event(3, 0, 1),
        event(3, 2, 0),
        event(3, 1, 5),
        event(3, 1, 4),
    ] {
        assert_eq!(rt; put(&rt, &set, &mut pass, new), Some(Ok(())));
    }
    assert_eq!(rt; put(&rt, &set, &mut pass, event(4, 1, 5)), None);
    for (limit, end) in [
        (3, TakeEnd::Missed),
        (LIMIT, taken(3, 0, 1)),
        (4, taken(3, 1, 4)),
        (4, taken(3, 1, 5)),
        (LIMIT, taken(3, 2, 0)),
        (9, TakeEnd::Missed),
        (10, taken(9, 0, 0)),
        (LIMIT, TakeEnd::Missed),
    ] {
        assert_eq!(rt; take(&rt, &set, &mut pass, limit), Ok(end), "below {limit}");
    }
    Ok(())
}

#[test]
fn one_history_of_two_deals(rt: HostRuntime) -> Result<(), Fail> {
    let alloc = rt.alloc();
    let (late, early, far) = (event(9, 0, 0), event(3, 0, 1), event(3, 5, 0));
    let mut maker = PlainMaker::new(alloc);
    assert_eq!(rt; maker.last(), None);
    let (set, mut passes) = alone(&mut maker, alloc, 7)?;
    let mut pass = set.lift(&mut passes, 0);
    assert_eq!(rt; put(&rt, &set, &mut pass, late), Some(Ok(())));
    assert_eq!(rt; put(&rt, &set, &mut pass, early), Some(Ok(())));
    assert_eq!(rt; take(&rt, &set, &mut pass, 3), Ok(TakeEnd::Missed));

    let mut passes = set.deal(gathered(&set, passes, pass), 1);
    let mut pass = set.lift(&mut passes, 0);
    assert_eq!(rt; take(&rt, &set, &mut pass, LIMIT), Ok(taken(3, 0, 1)));
    assert_eq!(rt; put(&rt, &set, &mut pass, far), Some(Ok(())));
    assert_eq!(rt; put(&rt, &set, &mut pass, late), None);
    assert_eq!(rt; take(&rt, &set, &mut pass, 4), Ok(taken(3, 5, 0)));
    assert_eq!(rt; take(&rt, &set, &mut pass, 9), Ok(TakeEnd::Missed));

    let whole = gathered(&set, passes, pass);
    maker.close(set, whole);
    let history = [
        Entry::Begin(0),
        Entry::Put(0, late),
        Entry::Settled(0, late),
        Entry::Begin(0),
        Entry::Put(0, early),
        Entry::Settled(0, early),
        Entry::Begin(0),
        Entry::Miss(0, 3),
        Entry::Begin(0),
        Entry::Take(0, early),
        Entry::Begin(0),
        Entry::Put(0, far),
        Entry::Settled(0, far),
        Entry::Begin(0),
        Entry::Take(0, far),
        Entry::Begin(0),
        Entry::Miss(0, 9),
    ];
    assert_eq!(rt; maker.last(), Some(history.as_slice()));
    assert_eq!(rt; judge(&history), Ok(()));
    Ok(())
}

/// Makes a set by any maker, and closes it as it is.
fn close_empty<M: SetMaker>(maker: &mut M, alloc: Global) -> Result<(), Memory>
    ensures { OnOk result (M.closed maker.new ≡ M.closed maker.old ++ ([] ∷ [])) }
{
    let (set, whole) = maker.make(alloc, 1, 4)?;
    maker.close(set, whole);
    Ok(())
}

#[test]
fn an_empty_history_is_kept(rt: HostRuntime) -> Result<(), Fail> {
    let mut maker = PlainMaker::new(rt.alloc());
    assert_eq!(rt; maker.last(), None);
    if close_empty(&mut maker, rt.alloc()).is_err() {
        assert_eq!(rt; maker.last(), None);
        close_empty(&mut maker, rt.alloc())?;
    }
    assert_eq!(rt; maker.last(), Some([].as_slice()));
    Ok(())
}

#[test]
fn keeps_many_events(rt: HostRuntime) -> Result<(), Fail> {
    let alloc = rt.alloc();
    let mut maker = PlainMaker::new(alloc);
    let (set, mut passes) = alone(&mut maker, alloc, 7)?;
    let mut pass = set.lift(&mut passes, 0);
    for seq in 0..24 {
        let new = event(24 - seq, 0, u64::from(seq));
        assert_eq!(rt; put(&rt, &set, &mut pass, new), Some(Ok(())));
    }
    for seq in 0..24 {
        let least = taken(seq + 1, 0, u64::from(23 - seq));
        assert_eq!(rt; take(&rt, &set, &mut pass, LIMIT), Ok(least));
    }
    let whole = gathered(&set, passes, pass);
    maker.close(set, whole);
    let history = maker.last().unwrap_or(&[]);
    assert_eq!(rt; history.len(), 120);
    assert_eq!(rt; judge(history), Ok(()));
    Ok(())
}
