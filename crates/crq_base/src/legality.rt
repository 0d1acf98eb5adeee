//! Which histories are legal, and where any other one goes wrong first.

ghost use Rattle.std.specs.Prelude.{◌≡◌, ◌↔◌, ◌<◌, ℕ, List, IsTrue, IsOk, MatchOption, MatchResult, Contains, length, take};
ghost use Rattle.std.specs.List.{filter_map};
ghost use Rattle.crq_base.specs.declared.event.Event.{Event};
ghost use Rattle.crq_base.specs.declared.entry.Entry.{Entry};
ghost use Rattle.crq_base.specs.declared.entry.Entry.TheVariants.{Put};
ghost use Rattle.crq_base.specs.Histories.{IsLegal, MayFollow, Began};
ghost use Rattle.crq_base.specs.Faults.{event_of, IsBelow, IsLeft, IsLeftBy, IsFirstOf, IsLeastLeft, IsUnfound, IsWrong, IsFirstWrong};

use crate::entry::Entry;
use crate::event::Event;

/// Why an entry is wrong after the entries before it.
#[derive(Clone, Copy, Debug, PartialEq, Eq)]
pub enum Fault {
    /// A Put of an event that was put before.
    PutTwice,
    /// A Settled of an event that this caller hasn't put, or a Take of one that nobody has put.
    NotPut,
    /// A Settled of an event that was settled before.
    SettledTwice,
    /// A Take of an event that was taken before.
    TakenTwice,
    /// A Take or a Miss of a caller whose last entry isn't Begin.
    NoBegin,
    /// A Take or a Miss that passed this event. It was settled before the caller's Begin and isn't taken; its key is
    /// lesser than that of the event that was taken, or its time lies below the limit of the Miss. It is the least such
    /// event.
    Passed(Event),
}

/// What an entry did with its event.
#[derive(Clone, Copy)]
enum Deed {
    Put,
    Settle,
    Take,
}

/// Which events a take owes before it may answer.
#[derive(Clone, Copy)]
enum Bound {
    /// Those with a lesser key than this event, which it took.
    Key(Event),
    /// Those with a time below this limit, at which it took nothing.
    Time(u64),
}

impl Bound {
    fn admits(&self, event: &Event) -> bool
        ensures { IsTrue result ↔ IsBelow self.now event.now }
    {
        match self {
            Bound::Key(taken) => event.key_cmp(taken).is_lt(),
            Bound::Time(limit) => u64::from(event.time) < *limit,
        }
    }
}

/// The event with which the entry did this deed.
fn event_of(entry: &Entry, deed: Deed) -> Option<Event>
    ensures { result ≡ event_of deed entry.now }
{
    match (deed, entry) {
        (Deed::Put, Entry::Put(_, event))
        | (Deed::Settle, Entry::Settled(_, event))
        | (Deed::Take, Entry::Take(_, event)) => Some(*event),
        _ => None,
    }
}

/// Whether some entry did this deed with the event.
fn has_done(history: &[Entry], deed: Deed, event: &Event) -> bool
    ensures { IsTrue result ↔ Contains (filter_map (event_of deed) history.now) event.now }
{
    for entry in history {
        if event_of(entry, deed) == Some(*event) {
            return true;
        }
    }
    false
}

/// Whether this caller has put the event.
fn has_put(history: &[Entry], caller: u32, event: &Event) -> bool
    ensures { IsTrue result ↔ Contains history.now (Put caller event.now) }
{
    history.contains(&Entry::Put(caller, *event))
}

/// The place of the caller's last entry, where that is a Begin.
fn began_at(history: &[Entry], caller: u32) -> Option<usize>
    ensures { MatchOption result ((front : List Entry) → Began caller history.now front → ⊥) (λ place. (place < length history.now) × Began caller history.now (take place history.now)) }
{
    let mut last = None;
    for (place, entry) in history.iter().enumerate() {
        if entry.caller() == caller {
            last = match entry {
                Entry::Begin(_) => Some(place),
                _ => None,
            };
        }
    }
    last
}

/// The event that this entry settled, where it isn't taken and lies within the bound.
fn left_by(entry: &Entry, history: &[Entry], bound: Bound) -> Option<Event>
    ensures { MatchOption result ((f : Event) → IsLeftBy entry.now history.now bound f → ⊥) (λ f. IsLeftBy entry.now history.now bound f) }
{
    let event = event_of(entry, Deed::Settle)?;
    (bound.admits(&event) && !has_done(history, Deed::Take, &event)).then_some(event)
}

/// The first of these events in their order.
fn first_of(known: Option<Event>, event: Event) -> Event
    ensures { IsFirstOf known event result }
{
    match known {
        Some(known) if !event.is_before(&known) => known,
        _ => event,
    }
}

/// The least event that was settled in front, isn't taken and lies within the bound.
fn least_left(front: &[Entry], history: &[Entry], bound: Bound) -> Option<Event>
    ensures { MatchOption result ((f : Event) → IsLeft front.now history.now bound f → ⊥) (λ f. IsLeastLeft front.now history.now bound f) }
{
    let mut least: Option<Event> = None;
    for entry in front {
        if let Some(event) = left_by(entry, history, bound) {
            least = Some(first_of(least, event));
        }
    }
    least
}

/// Why this caller may not end a search at this bound.
fn unfound(history: &[Entry], caller: u32, bound: Bound) -> Option<Fault>
    ensures { MatchOption result ((front : List Entry) × Began caller history.now front × ((f : Event) → IsLeft front history.now bound f → ⊥)) (λ fault. IsUnfound history.now caller bound fault) }
{
    let Some(place) = began_at(history, caller) else {
        return Some(Fault::NoBegin);
    };
    least_left(&history[..place], history, bound).map(Fault::Passed)
}

/// Why this entry may not follow.
fn fault_of(history: &[Entry], entry: &Entry) -> Option<Fault>
    ensures { MatchOption result (MayFollow history.now entry.now) (λ fault. IsWrong history.now entry.now fault) }
{
    match entry {
        Entry::Begin(_) | Entry::Table(_, _, _) => None,
        Entry::Put(_, event) => has_done(history, Deed::Put, event).then_some(Fault::PutTwice),
        Entry::Settled(caller, event) => {
            if !has_put(history, *caller, event) {
                return Some(Fault::NotPut);
            }
            has_done(history, Deed::Settle, event).then_some(Fault::SettledTwice)
        }
        Entry::Take(caller, event) => {
            if !has_done(history, Deed::Put, event) {
                return Some(Fault::NotPut);
            }
            if has_done(history, Deed::Take, event) {
                return Some(Fault::TakenTwice);
            }
            unfound(history, *caller, Bound::Key(*event))
        }
        Entry::Miss(caller, limit) => unfound(history, *caller, Bound::Time(*limit)),
    }
}

/// Tells whether a history is legal. Else it names the first entry that is wrong by its index, and the first fault of
/// that entry in the order in which `Fault` lists them.
///
/// The rule is after the time-stamped deletions of Shavit and Lotan, "Skiplist-based concurrent priority queues"
/// (2000). It takes no memory, and time in the order of the cube of the history's length at worst.
pub fn judge(history: &[Entry]) -> Result<(), (usize, Fault)>
    ensures judged { MatchResult result (λ _. IsLegal history.now) (λ wrong. IsFirstWrong history.now wrong.0 wrong.1) }
    ensures legal { IsLegal history.now → IsOk result }
{
    for (index, entry) in history.iter().enumerate() {
        if let Some(fault) = fault_of(&history[..index], entry) {
            return Err((index, fault));
        }
    }
    Ok(())
}
