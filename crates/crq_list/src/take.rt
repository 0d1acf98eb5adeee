//! Taking the first present event of a bucket, or of a whole table.
ghost use Rattle.std.specs.Prelude.{◌≡◌, ◌⊎◌, ◌<◌, ◌≤◌, ◌+◌, ◌*◌, ◌%◌, ◌==◌, cond, nat_lt, ℕ, None, Some};
ghost use Rattle.crq_base.specs.declared.event.Event.{Event};
ghost use Rattle.crq_base.specs.declared.words.Link.{Link};
ghost use Rattle.crq_base.specs.Words.{IsControl};
ghost use Rattle.crq_rows.specs.Passes.{IsPassOf};
ghost use Rattle.crq_rule.specs.ListKinds.{event_word};
ghost use Rattle.crq_rule.specs.Ranks.{rank, bucket, shape_of};
ghost use Rattle.crq_rule.specs.Places.{IsHead};
ghost use Rattle.crq_rule.specs.Parts.{IsEvent};
ghost use Rattle.crq_list.specs.declared.parts.Place.TheVariants.{Bucket};
ghost use Rattle.crq_list.specs.declared.parts.Progress.TheVariants.{More, Done};
ghost use Rattle.crq_list.specs.declared.take.MarkEnd.TheVariants.{Nothing};
ghost use Rattle.crq_list.specs.declared.take.Candidate.{Candidate};
ghost use Rattle.crq_list.specs.declared.take.TakeState.TheVariants.{Load, Walking, Reading, Marking};
ghost use Rattle.crq_list.specs.Operations.{IsUnderWay, MakesStep, MakesSteps};
ghost use Rattle.crq_list.specs.Taking.{IsRead, the_take, take_at, cut_of, taking_exchanges, head_at, last_head, lesser_of, search_ends, next_list, list_ends, goes_past, row_read};

use crate::cut::CutOp;
use crate::parts::{ListAt, Place, Progress, Spot};
use crate::steps::{head_of, mark_step, walk_step};
use crq_base::{Control, Event, Link, Mark};
use crq_rows::{Pass, Table, read_step};
use crq_rule::BANK;

/// How a take ends.
#[derive(Clone, Copy)]
pub enum MarkEnd {
    /// This row is marked dead: its event was taken. The cut of the row is yet to be made: this is it.
    Marked(u32, Event, CutOp),
    /// The first present event isn't below the limit. It is this one, of the row at which the walk stopped, or of the least
    /// row that the search found.
    Beyond(Event),
    /// The list has no present event of its bucket, nor of an earlier one; or the table has no present event.
    Nothing,
    /// The first present row has changed, and nothing was taken.
    Lost,
    /// A head or row was found frozen, or the head was of a later table, where tables may move. Nothing was taken, and the
    /// pass owes no dead row.
    Frozen,
}

/// A row that was found present, with its link and its event.
#[derive(Clone, Copy)]
pub struct Candidate {
    /// The row.
    pub row: u32,
    /// Its link.
    pub link: Link,
    /// Its event.
    pub event: Event,
}

/// How far a take is in the list of its head. What comes last in each state but the first is the row that the head was found
/// to name.
#[derive(Clone, Copy)]
pub enum TakeState {
    /// The list's head is to be loaded.
    Load,
    /// The link of this row is to be loaded.
    Walking(u32, u32),
    /// This row was found present, with this link, and this word of its event is to be read. The words before it are read.
    Reading(u32, Link, u32, Event, u32),
    /// This row, with this link and this event, is to be marked.
    Marking(u32, Link, Event, u32),
}

/// A take of the first present event of a bucket, or of all lists, that is below a limit, one atomic step at a time. It goes
/// past dead rows without cutting them, and past such as aren't valid yet, and marks the row that it takes by one exchange.
/// In a bucket's list it stops at the first present row. A search does so in each list in turn, and keeps the least of these
/// rows.
#[derive(Clone, Copy)]
pub struct TakeOp {
    /// The control word under which the lists are open.
    pub found: Control,
    /// What it walks.
    pub place: Place,
    /// The head of the list at which it is, numbered over both banks.
    pub head: u32,
    /// The time from which on nothing is taken.
    pub limit: u64,
    /// The least row that a search found in the lists before this one.
    pub best: Option<Candidate>,
    /// How far it is.
    pub state: TakeState,
}

/// An event of which no word was read.
const UNREAD: Event = Event {
    time: 0,
    dst: 0,
    src: 0,
    seq: 0,
    load: 0,
};

/// The event with the word that was read at this place of its row.
#[inline(always)]
fn with_word(event: Event, place: u32, word: u64) -> Event
    requires place { (2 ≤ place) × (place < 6) }
    requires word { (e : Event) × IsEvent e × (word ≡ event_word e place) }
    ensures { (e : Event) → IsEvent e → word ≡ event_word e place → IsRead place event e → IsRead (place + 1) result e × (place ≡ 5 → result ≡ e) }
{
    match place {
        2 => Event {
            time: (word >> 32) as u32,
            dst: (word % (1 << 32)) as u32,
            ..event
        },
        3 => Event {
            src: word as u32,
            ..event
        },
        4 => Event { seq: word, ..event },
        _ => Event {
            load: word,
            ..event
        },
    }
}

/// The head at which a take begins, in the table with this control word.
fn head_at(control: &Control, place: Place) -> u32
    requires { IsControl control.now }
    ensures { result ≡ head_at control.now place }
{
    let first = control.generation % 2 * BANK;
    match place {
        Place::Bucket(bucket) => first + bucket % (1 << control.log),
        Place::Search => first,
    }
}

/// The last head of the table with this control word.
fn last_head(control: &Control) -> u32
    requires { IsControl control.now }
    ensures { result ≡ last_head control.now }
{
    let lists: u32 = 1 << control.log;
    control.generation % 2 * BANK + (lists - 1)
}

/// The bucket of an event in the table with this control word.
fn bucket_of(control: &Control, event: &Event) -> u32
    requires { IsControl control.now }
    ensures { result ≡ bucket (shape_of control.now) event.now.time }
{
    event.time >> control.shift
}

/// Whether the first of two rows comes before the other by its place in a list.
fn comes_before(a: &Candidate, b: &Candidate) -> bool
    requires first { IsEvent a.now.event × (a.now.row < 16777216) }
    requires second { IsEvent b.now.event × (b.now.row < 16777216) }
    ensures { result ≡ nat_lt (rank a.now.event a.now.row) (rank b.now.event b.now.row) }
{
    if a.event.time != b.event.time {
        return a.event.time < b.event.time;
    }
    if a.event.src != b.event.src {
        return a.event.src < b.event.src;
    }
    if a.event.seq != b.event.seq {
        return a.event.seq < b.event.seq;
    }
    a.row < b.row
}

/// The lesser of a row, if there is one, and the next.
fn lesser(best: Option<Candidate>, found: Candidate) -> Candidate
    requires first { (c : Candidate) → best ≡ Some c → IsEvent c.event × (c.row < 16777216) }
    requires second { IsEvent found.event × (found.row < 16777216) }
    ensures { result ≡ lesser_of best found }
{
    match best {
        None => found,
        Some(least) => {
            if comes_before(&found, &least) {
                found
            } else {
                least
            }
        }
    }
}

impl TakeOp {
    /// A take that has made no step, of the table that has this steady control word.
    pub fn new(found: Control, place: Place, limit: u64) -> TakeOp
        requires { IsControl found }
        ensures { result ≡ record { found = found; place = place; head = head_at found place; limit = limit; best = None; state = Load } }
    {
        TakeOp {
            found,
            place,
            head: head_at(&found, place),
            limit,
            best: None,
            state: TakeState::Load,
        }
    }

    /// Whether the next step is an exchange.
    pub fn exchanges(&self) -> bool
        ensures { result ≡ taking_exchanges self.now.state }
    {
        matches!(self.state, TakeState::Marking(_, _, _, _))
    }

    /// The take at this state.
    #[inline(always)]
    fn at(self, state: TakeState) -> TakeOp
        ensures { result ≡ take_at self state }
    {
        TakeOp { state, ..self }
    }

    /// What follows once a search has walked all lists, and found this row to be the least.
    #[inline(always)]
    fn search_ends(self, best: Option<Candidate>) -> (TakeOp, Progress<MarkEnd>)
        ensures { result ≡ search_ends self best }
    {
        let Some(least) = best else {
            return (self.at(TakeState::Load), Progress::Done(MarkEnd::Nothing));
        };
        if u64::from(least.event.time) >= self.limit {
            let end = MarkEnd::Beyond(least.event);
            return (self.at(TakeState::Load), Progress::Done(end));
        }
        let state = TakeState::Marking(least.row, least.link, least.event, 0);
        (self.at(state), Progress::More)
    }

    /// What follows once a search has walked a list, and found this row to be the least so far.
    #[inline(always)]
    fn next_list(self, best: Option<Candidate>) -> (TakeOp, Progress<MarkEnd>)
        requires control { IsControl self.found }
        requires head { IsHead self.head }
        ensures { result ≡ next_list self best }
    {
        if self.head == last_head(&self.found) {
            return self.search_ends(best);
        }
        let next = TakeOp {
            head: self.head + 1,
            best,
            state: TakeState::Load,
            ..self
        };
        (next, Progress::More)
    }

    /// What follows at the end of a list.
    #[inline(always)]
    fn list_ends(self) -> (TakeOp, Progress<MarkEnd>)
        requires control { IsControl self.found }
        requires head { IsHead self.head }
        ensures { result ≡ list_ends self.place self }
    {
        match self.place {
            Place::Bucket(_) => (self.at(TakeState::Load), Progress::Done(MarkEnd::Nothing)),
            Place::Search => self.next_list(self.best),
        }
    }

    /// What follows after a head or row that was passed: the row that its link names, or the end of the list.
    #[inline(always)]
    fn goes_past(self, link: Link, first: u32) -> (TakeOp, Progress<MarkEnd>)
        requires control { IsControl self.found }
        requires head { IsHead self.head }
        ensures { result ≡ goes_past self link first }
    {
        if link.row == 0 {
            self.list_ends()
        } else {
            (self.at(TakeState::Walking(link.row, first)), Progress::More)
        }
    }

    /// What follows once the event of a bucket's first present row was read. In a bucket only the state changes.
    #[inline(always)]
    fn row_read_in(
        &self,
        bucket: u32,
        found: Candidate,
        first: u32,
    ) -> (TakeState, Progress<MarkEnd>)
        requires control { IsControl self.now.found }
        ensures { (take_at self.now result.0, result.1) ≡ row_read (Bucket bucket) self.now found.row found.link found.event first }
    {
        if bucket_of(&self.found, &found.event) > bucket {
            return (TakeState::Load, Progress::Done(MarkEnd::Nothing));
        }
        if u64::from(found.event.time) >= self.limit {
            let end = MarkEnd::Beyond(found.event);
            return (TakeState::Load, Progress::Done(end));
        }
        let state = TakeState::Marking(found.row, found.link, found.event, first);
        (state, Progress::More)
    }

    /// What follows once the event of a list's first present row was read.
    #[inline(always)]
    fn row_read(self, found: Candidate, first: u32) -> (TakeOp, Progress<MarkEnd>)
        requires control { IsControl self.found }
        requires head { IsHead self.head }
        requires best { (c : Candidate) → self.best ≡ Some c → IsEvent c.event × (c.row < 16777216) }
        requires row { IsEvent found.event × (found.row < 16777216) }
        ensures { result ≡ row_read self.place self found.row found.link found.event first }
    {
        match self.place {
            Place::Bucket(bucket) => {
                let (state, answer) = self.row_read_in(bucket, found, first);
                (self.at(state), answer)
            }
            Place::Search => self.next_list(Some(lesser(self.best, found))),
        }
    }

    /// Loads the head. That of a later table of the same bank isn't walked, since the take is to see its own.
    #[inline(always)]
    fn load(self, table: &Table, pass: &mut Pass) -> (TakeOp, Progress<MarkEnd>)
        requires of { IsPassOf table.now pass.old }
        requires op { IsUnderWay the_take table.now (take_at self Load, pass.old) }
        ensures { MakesStep the_take table.now (take_at self Load, pass.old) (result.0, pass.new) result.1 }
    {
        let link = walk_step(table, pass, Spot::Head(self.head), Some(self.place));
        if link.generation != self.found.generation {
            return (self, Progress::Done(MarkEnd::Frozen));
        }
        match link.mark {
            Mark::Val => self.goes_past(link, link.row),
            _ => (self, Progress::Done(MarkEnd::Frozen)),
        }
    }

    /// Loads the link of the row at which the walk is, and goes past it where it is dead, or not valid yet.
    #[inline(always)]
    fn walk(
        self,
        table: &Table,
        pass: &mut Pass,
        row: u32,
        first: u32,
    ) -> (TakeOp, Progress<MarkEnd>)
        requires of { IsPassOf table.now pass.old }
        requires op { IsUnderWay the_take table.now (take_at self (Walking row first), pass.old) }
        ensures { MakesStep the_take table.now (take_at self (Walking row first), pass.old) (result.0, pass.new) result.1 }
    {
        let link = walk_step(table, pass, Spot::Row(row), Some(self.place));
        match link.mark {
            Mark::Val => (
                self.at(TakeState::Reading(row, link, 2, UNREAD, first)),
                Progress::More,
            ),
            Mark::Inv | Mark::Del => self.goes_past(link, first),
            Mark::Mov => (self, Progress::Done(MarkEnd::Frozen)),
        }
    }

    /// Reads one word of the present row's event.
    #[inline(always)]
    fn read(
        self,
        table: &Table,
        pass: &mut Pass,
        row: u32,
        link: Link,
        place: u32,
        unread: Event,
        first: u32,
    ) -> (TakeOp, Progress<MarkEnd>)
        requires of { IsPassOf table.now pass.old }
        requires op { IsUnderWay the_take table.now (take_at self (Reading row link place unread first), pass.old) }
        ensures { MakesStep the_take table.now (take_at self (Reading row link place unread first), pass.old) (result.0, pass.new) result.1 }
    {
        let word = read_step(table, pass, row, place);
        let event = with_word(unread, place, word);
        if place < 5 {
            let state = TakeState::Reading(row, link, place + 1, event, first);
            return (self.at(state), Progress::More);
        }
        self.row_read(Candidate { row, link, event }, first)
    }

    /// The cut of a row that was marked. In a bucket it begins at the head's link where that was found to name the row.
    #[inline(always)]
    fn cut_of(&self, row: u32, event: Event, first: u32) -> CutOp
        requires { IsControl self.now.found }
        ensures { result ≡ cut_of self.now row event first }
    {
        let list = ListAt {
            generation: self.found.generation,
            head: head_of(&self.found, &event),
        };
        match self.place {
            Place::Bucket(_) => CutOp::after(list, event, row, first),
            Place::Search => CutOp::new(list, Some((event, row))),
        }
    }

    /// Marks the present row. What is left then is to load the head, whatever was answered.
    #[inline(always)]
    fn mark(
        &self,
        table: &Table,
        pass: &mut Pass,
        row: u32,
        link: Link,
        event: Event,
        first: u32,
    ) -> Progress<MarkEnd>
        requires of { IsPassOf table.now pass.old }
        requires free { pass.old.debts.cut ≡ None }
        requires op { IsUnderWay the_take table.now (take_at self.now (Marking row link event first), pass.old) }
        ensures { MakesStep the_take table.now (take_at self.now (Marking row link event first), pass.old) (take_at self.now Load, pass.new) result }
    {
        if mark_step(table, pass, &self.found, row, link, &event) {
            let cut = self.cut_of(row, event, first);
            Progress::Done(MarkEnd::Marked(row, event, cut))
        } else {
            Progress::Done(MarkEnd::Lost)
        }
    }

    /// Makes one atomic step.
    #[inline(always)]
    pub fn step(&mut self, table: &Table, pass: &mut Pass) -> Progress<MarkEnd>
        requires of { IsPassOf table.now pass.old }
        requires free { pass.old.debts.cut ≡ None }
        requires op { IsUnderWay the_take table.now (self.old, pass.old) }
        ensures { MakesStep the_take table.now (self.old, pass.old) (self.new, pass.new) result }
    {
        let before = *self;
        let (after, answer) = match before.state {
            TakeState::Load => before.load(table, pass),
            TakeState::Walking(row, first) => before.walk(table, pass, row, first),
            TakeState::Reading(row, link, place, event, first) => before.read(
                table, pass, row, link, place, event, first,
            ),
            TakeState::Marking(row, link, event, first) => {
                let told = before.mark(table, pass, row, link, event, first);
                (before.at(TakeState::Load), told)
            }
        };
        *self = after;
        answer
    }

    /// What follows in a bucket after a head or row that was passed.
    #[inline(always)]
    fn goes_past_in(link: Link, first: u32) -> (TakeState, Progress<MarkEnd>)
        ensures { result ≡ cond (link.row == 0) (Load, Done Nothing) (Walking link.row first, More) }
    {
        if link.row == 0 {
            (TakeState::Load, Progress::Done(MarkEnd::Nothing))
        } else {
            (TakeState::Walking(link.row, first), Progress::More)
        }
    }

    /// Loads the head of a bucket.
    #[inline(always)]
    fn load_in(&self, table: &Table, pass: &mut Pass) -> (TakeState, Progress<MarkEnd>)
        requires of { IsPassOf table.now pass.old }
        requires place { (b : ℕ) × (self.now.place ≡ Bucket b) }
        requires op { IsUnderWay the_take table.now (take_at self.now Load, pass.old) }
        ensures { MakesStep the_take table.now (take_at self.now Load, pass.old) (take_at self.now result.0, pass.new) result.1 }
    {
        let link = walk_step(table, pass, Spot::Head(self.head), Some(self.place));
        if link.generation != self.found.generation {
            return (TakeState::Load, Progress::Done(MarkEnd::Frozen));
        }
        match link.mark {
            Mark::Val => TakeOp::goes_past_in(link, link.row),
            _ => (TakeState::Load, Progress::Done(MarkEnd::Frozen)),
        }
    }

    /// Loads the link of the row at which the walk of a bucket is, and goes past it where it is dead, or not valid yet.
    #[inline(always)]
    fn walk_in(
        &self,
        table: &Table,
        pass: &mut Pass,
        row: u32,
        first: u32,
    ) -> (TakeState, Progress<MarkEnd>)
        requires of { IsPassOf table.now pass.old }
        requires place { (b : ℕ) × (self.now.place ≡ Bucket b) }
        requires op { IsUnderWay the_take table.now (take_at self.now (Walking row first), pass.old) }
        ensures { MakesStep the_take table.now (take_at self.now (Walking row first), pass.old) (take_at self.now result.0, pass.new) result.1 }
    {
        let link = walk_step(table, pass, Spot::Row(row), Some(self.place));
        match link.mark {
            Mark::Val => (
                TakeState::Reading(row, link, 2, UNREAD, first),
                Progress::More,
            ),
            Mark::Inv | Mark::Del => TakeOp::goes_past_in(link, first),
            Mark::Mov => (TakeState::Load, Progress::Done(MarkEnd::Frozen)),
        }
    }

    /// Reads one word of the event of a bucket's first present row.
    #[inline(always)]
    fn read_in(
        &self,
        bucket: u32,
        table: &Table,
        pass: &mut Pass,
        row: u32,
        link: Link,
        place: u32,
        unread: Event,
        first: u32,
    ) -> (TakeState, Progress<MarkEnd>)
        requires of { IsPassOf table.now pass.old }
        requires place { self.now.place ≡ Bucket bucket }
        requires op { IsUnderWay the_take table.now (take_at self.now (Reading row link place unread first), pass.old) }
        ensures stepped { MakesStep the_take table.now (take_at self.now (Reading row link place unread first), pass.old) (take_at self.now result.0, pass.new) result.1 }
        ensures same { (other : ℕ) (found : Link) (next : ℕ) (read : Event) (head : ℕ) → result.0 ≡ Reading other found next read head → (other ≡ row) × (found ≡ link) × (head ≡ first) }
    {
        let word = read_step(table, pass, row, place);
        let event = with_word(unread, place, word);
        if place < 5 {
            let state = TakeState::Reading(row, link, place + 1, event, first);
            return (state, Progress::More);
        }
        self.row_read_in(bucket, Candidate { row, link, event }, first)
    }

    /// Reads the words of the event of a bucket's first present row from this one on.
    #[inline(always)]
    fn read_event(
        &self,
        bucket: u32,
        table: &Table,
        pass: &mut Pass,
        row: u32,
        link: Link,
        start: u32,
        unread: Event,
        first: u32,
    ) -> (TakeState, Progress<MarkEnd>)
        requires of { IsPassOf table.now pass.old }
        requires place { self.now.place ≡ Bucket bucket }
        requires op { IsUnderWay the_take table.now (take_at self.now (Reading row link start unread first), pass.old) }
        ensures { MakesSteps the_take table.now (take_at self.now (Reading row link start unread first), pass.old) (take_at self.now result.0, pass.new) result.1 }
    {
        let (mut place, mut event) = (start, unread);
        loop {
            let told = self.read_in(bucket, table, pass, row, link, place, event, first);
            let (TakeState::Reading(_, _, next, read, _), Progress::More) = told else {
                return told;
            };
            place = next;
            event = read;
        }
    }

    /// Walks in a bucket past dead rows, and such as aren't valid yet, to a present one, or to the end of the list.
    #[inline(always)]
    fn walk_rows(
        &self,
        table: &Table,
        pass: &mut Pass,
        start: u32,
        first: u32,
    ) -> (TakeState, Progress<MarkEnd>)
        requires of { IsPassOf table.now pass.old }
        requires place { (b : ℕ) × (self.now.place ≡ Bucket b) }
        requires op { IsUnderWay the_take table.now (take_at self.now (Walking start first), pass.old) }
        ensures { MakesSteps the_take table.now (take_at self.now (Walking start first), pass.old) (take_at self.now result.0, pass.new) result.1 }
    {
        let (mut row, mut named) = (start, first);
        loop {
            let told = self.walk_in(table, pass, row, named);
            let (TakeState::Walking(next, still), Progress::More) = told else {
                return told;
            };
            row = next;
            named = still;
        }
    }

    /// Walks in a bucket from this row on to a present one, and reads its event.
    #[inline(always)]
    fn from_walking(
        &self,
        bucket: u32,
        table: &Table,
        pass: &mut Pass,
        row: u32,
        first: u32,
    ) -> (TakeState, Progress<MarkEnd>)
        requires of { IsPassOf table.now pass.old }
        requires place { self.now.place ≡ Bucket bucket }
        requires op { IsUnderWay the_take table.now (take_at self.now (Walking row first), pass.old) }
        ensures { MakesSteps the_take table.now (take_at self.now (Walking row first), pass.old) (take_at self.now result.0, pass.new) result.1 }
    {
        let told = self.walk_rows(table, pass, row, first);
        let (TakeState::Reading(row, link, place, event, first), Progress::More) = told else {
            return told;
        };
        self.read_event(bucket, table, pass, row, link, place, event, first)
    }

    /// Loads the head of a bucket, and walks from there on.
    #[inline(always)]
    fn from_load(
        &self,
        bucket: u32,
        table: &Table,
        pass: &mut Pass,
    ) -> (TakeState, Progress<MarkEnd>)
        requires of { IsPassOf table.now pass.old }
        requires place { self.now.place ≡ Bucket bucket }
        requires op { IsUnderWay the_take table.now (take_at self.now Load, pass.old) }
        ensures { MakesSteps the_take table.now (take_at self.now Load, pass.old) (take_at self.now result.0, pass.new) result.1 }
    {
        let told = self.load_in(table, pass);
        let (TakeState::Walking(row, first), Progress::More) = told else {
            return told;
        };
        self.from_walking(bucket, table, pass, row, first)
    }

    /// Makes the steps of `run` in a bucket.
    #[inline(always)]
    fn run_in(&self, bucket: u32, table: &Table, pass: &mut Pass) -> (TakeState, Progress<MarkEnd>)
        requires of { IsPassOf table.now pass.old }
        requires free { pass.old.debts.cut ≡ None }
        requires place { self.now.place ≡ Bucket bucket }
        requires op { IsUnderWay the_take table.now (self.now, pass.old) }
        ensures { MakesSteps the_take table.now (self.now, pass.old) (take_at self.now result.0, pass.new) result.1 }
    {
        match self.state {
            TakeState::Load => self.from_load(bucket, table, pass),
            TakeState::Walking(row, first) => self.from_walking(bucket, table, pass, row, first),
            TakeState::Reading(row, link, place, event, first) => self.read_event(
                bucket, table, pass, row, link, place, event, first,
            ),
            TakeState::Marking(row, link, event, first) => {
                let told = self.mark(table, pass, row, link, event, first);
                (TakeState::Load, told)
            }
        }
    }

    /// Makes the steps of `run` in a search. It isn't inlined, and is handed a copy, so that the take of a bucket needn't lie in
    /// memory.
    #[inline(never)]
    fn run_search(self, table: &Table, pass: &mut Pass) -> (TakeOp, Progress<MarkEnd>)
        requires of { IsPassOf table.now pass.old }
        requires free { pass.old.debts.cut ≡ None }
        requires op { IsUnderWay the_take table.now (self, pass.old) }
        ensures { MakesSteps the_take table.now (self, pass.old) (result.0, pass.new) result.1 }
    {
        let mut op = self;
        if op.exchanges() {
            let answer = op.step(table, pass);
            return (op, answer);
        }
        loop {
            let answer = op.step(table, pass);
            let Progress::More = answer else {
                return (op, answer);
            };
            if op.exchanges() {
                return (op, answer);
            }
        }
    }

    /// Makes one atomic step or more, of which only the first may be an exchange: those that mostly follow on one another.
    #[inline(always)]
    pub fn run(&mut self, table: &Table, pass: &mut Pass) -> Progress<MarkEnd>
        requires of { IsPassOf table.now pass.old }
        requires free { pass.old.debts.cut ≡ None }
        requires op { IsUnderWay the_take table.now (self.old, pass.old) }
        ensures { MakesSteps the_take table.now (self.old, pass.old) (self.new, pass.new) result }
    {
        match self.place {
            Place::Bucket(bucket) => {
                let (state, answer) = self.run_in(bucket, table, pass);
                self.state = state;
                answer
            }
            Place::Search => {
                let (after, answer) = (*self).run_search(table, pass);
                *self = after;
                answer
            }
        }
    }
}
