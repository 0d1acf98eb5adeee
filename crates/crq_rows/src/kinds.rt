//! One atomic step of any kind. Its kind, and what it does to what is known of its caller, are picked where it is called.
//!
//! The argument `_said` isn't read when the program runs. It hands in the values that the pick names, as the row and the
//! place of a write do: a pick is made in the caller's proof from the arguments of the call, and can name nothing else.
ghost use Rattle.std.specs.Prelude.{◌≡◌, ◌<◌, ℕ, ◌==◌};
ghost use prog.Atomic.{either};
ghost use Rattle.crq_base.specs.declared.kinds.StepKind.{StepKind};
ghost use Rattle.crq_base.specs.declared.kinds.StepKind.TheVariants.{EpochLoad};
ghost use Rattle.crq_rule.specs.declared.layout.Start.{Start};
ghost use Rattle.crq_rule.specs.declared.view.Caller.{Caller};
ghost use Rattle.crq_rule.specs.Moves.{Lawful, Moves, MovesBy, By, FirstTurns, quiet};
ghost use Rattle.crq_rows.specs.Passes.{caller, StaysAside, IsAside, IsPassOf, IsSeated, Steps, Stepped, Turned, Turns, Exchanged, ExchangedBy, Exchanges, load_made, store_made, step_made};

use atomic_table::Play;
use crq_rule::{Pass, Table, View};
use std::marker::{Brand, PhantomData};

/// A kind of step. What it changes and tells is of the word found, or stored, and of the caller before.
pub trait Change {
    ghost kind: { StepKind };

    ghost change: { ℕ → Caller → Caller };

    ghost tells: { ℕ → Caller → Type 0 };
}

impl Change for Brand {
    ghost kind = { EpochLoad };

    ghost change = { λ r p. p };

    ghost tells = { quiet };
}

/// The step of a kind, as `atomic_table` takes it. It adds the step to those that the caller made.
pub struct Does<F: Change> {
    of: PhantomData<F>,
}

impl<F: Change> Play<(), View> for Does<F> {
    ghost then = { λ st m r n. FirstTurns (By F.change F.tells r) (step_made F.kind st.word st.first st.second r) m.0.parts n.0 × (n.1 ≡ m.1) };
}

/// A kind of step after which what is known of its caller is in a relation to what it was. It is of the word found, or
/// stored.
pub trait Turn {
    ghost kind: { StepKind };

    ghost turns: { ℕ → Caller → Caller → Type 0 };
}

impl Turn for Brand {
    ghost kind = { EpochLoad };

    ghost turns = { λ r p q. Unit {0} };
}

/// The step of such a kind, as `atomic_table` takes it.
pub struct TurnsBy<F: Turn> {
    of: PhantomData<F>,
}

impl<F: Turn> Play<(), View> for TurnsBy<F> {
    ghost then = { λ st m r n. FirstTurns (F.turns r) (step_made F.kind st.word st.first st.second r) m.0.parts n.0 × (n.1 ≡ m.1) };
}

/// Loads a word.
pub fn load_as<F: Change, T>(table: &Table, pass: &mut Pass, word: usize, _said: &T) -> u64
    requires of { IsPassOf table.now pass.old }
    requires word { word < table.now.inner.shared.table_id.words }
    requires aside { IsAside F.change }
    requires moves { Moves F.kind table.now.start (caller table.now pass.old) word (λ n. n) F.change F.tells }
    ensures stepped { Stepped table.now pass.old pass.new (load_made F.kind word result) (F.change result) }
    ensures told { F.tells result (caller table.now pass.old) }
{
    table.inner.shared.load::<Does<F>>(&mut pass.seat, word)
}

/// Loads a word by a kind of step that tells more than the word found.
pub fn load_turning<F: Turn, T>(table: &Table, pass: &mut Pass, word: usize, _said: &T) -> u64
    requires of { IsPassOf table.now pass.old }
    requires word { word < table.now.inner.shared.table_id.words }
    requires aside { (r : ℕ) (p q : Caller) → Lawful p → F.turns r p q → StaysAside p q }
    requires moves { MovesBy F.kind table.now.start (caller table.now pass.old) word (λ n. n) F.turns }
    ensures { Turned table.now pass.old pass.new (load_made F.kind word result) (F.turns result) }
{
    table.inner.shared.load::<TurnsBy<F>>(&mut pass.seat, word)
}

/// Loads a word as `load_turning` does, where what the pass has at run time has yet to follow.
pub fn load_seated<F: Turn, T>(table: &Table, pass: &mut Pass, word: usize, _said: &T) -> u64
    requires of { IsSeated table.now pass.old }
    requires word { word < table.now.inner.shared.table_id.words }
    requires moves { MovesBy F.kind table.now.start (caller table.now pass.old) word (λ n. n) F.turns }
    ensures { Turns table.now pass.old pass.new (load_made F.kind word result) (F.turns result) }
{
    table.inner.shared.load::<TurnsBy<F>>(&mut pass.seat, word)
}

/// Stores a word.
pub fn store_as<F: Change, T>(table: &Table, pass: &mut Pass, word: usize, new: u64, _said: &T)
    requires of { IsPassOf table.now pass.old }
    requires word { word < table.now.inner.shared.table_id.words }
    requires aside { IsAside F.change }
    requires moves { Moves F.kind table.now.start (caller table.now pass.old) word (λ _. new) (λ _. F.change new) (λ _. F.tells new) }
    ensures stepped { Stepped table.now pass.old pass.new (store_made F.kind word new) (F.change new) }
    ensures told { F.tells new (caller table.now pass.old) }
{
    table
        .inner
        .shared
        .store::<Does<F>>(&mut pass.seat, word, new)
}

/// Stores a word, where what the pass has at run time has yet to follow.
pub fn store_seated<F: Change, T>(table: &Table, pass: &mut Pass, word: usize, new: u64, _said: &T)
    requires of { IsSeated table.now pass.old }
    requires word { word < table.now.inner.shared.table_id.words }
    requires moves { Moves F.kind table.now.start (caller table.now pass.old) word (λ _. new) (λ _. F.change new) (λ _. F.tells new) }
    ensures steps { Steps table.now pass.old pass.new (store_made F.kind word new) (F.change new) }
    ensures told { F.tells new (caller table.now pass.old) }
{
    table
        .inner
        .shared
        .store::<Does<F>>(&mut pass.seat, word, new)
}

/// Exchanges a word from `old` to `new` where it is `old`, and answers what it found. The exchange is counted.
pub fn exchange_as<F: Change, T>(
    table: &Table,
    pass: &mut Pass,
    word: usize,
    old: u64,
    new: u64,
    _said: &T,
) -> u64
    requires of { IsPassOf table.now pass.old }
    requires word { word < table.now.inner.shared.table_id.words }
    requires aside { IsAside F.change }
    requires moves { Moves F.kind table.now.start (caller table.now pass.old) word (λ n. either (n == old) new n) F.change F.tells }
    ensures exchanged { Exchanged table.now pass.old pass.new (step_made F.kind word old new result) (F.change result) }
    ensures told { F.tells result (caller table.now pass.old) }
{
    pass.turns = pass.turns.saturating_add(1);
    table
        .inner
        .shared
        .compare_exchange::<Does<F>>(&mut pass.seat, word, old, new)
}

/// Exchanges a word as `exchange_as` does, by a kind of step that tells more than the word found.
pub fn exchange_turning<F: Turn, T>(
    table: &Table,
    pass: &mut Pass,
    word: usize,
    old: u64,
    new: u64,
    _said: &T,
) -> u64
    requires of { IsPassOf table.now pass.old }
    requires word { word < table.now.inner.shared.table_id.words }
    requires aside { (r : ℕ) (p q : Caller) → Lawful p → F.turns r p q → StaysAside p q }
    requires moves { MovesBy F.kind table.now.start (caller table.now pass.old) word (λ n. either (n == old) new n) F.turns }
    ensures { ExchangedBy table.now pass.old pass.new (step_made F.kind word old new result) (F.turns result) }
{
    pass.turns = pass.turns.saturating_add(1);
    table
        .inner
        .shared
        .compare_exchange::<TurnsBy<F>>(&mut pass.seat, word, old, new)
}

/// Exchanges a word as `exchange_as` does, where what the pass has at run time has yet to follow.
pub fn exchange_seated<F: Change, T>(
    table: &Table,
    pass: &mut Pass,
    word: usize,
    old: u64,
    new: u64,
    _said: &T,
) -> u64
    requires of { IsSeated table.now pass.old }
    requires word { word < table.now.inner.shared.table_id.words }
    requires moves { Moves F.kind table.now.start (caller table.now pass.old) word (λ n. either (n == old) new n) F.change F.tells }
    ensures exchanges { Exchanges table.now pass.old pass.new (step_made F.kind word old new result) (F.change result) }
    ensures told { F.tells result (caller table.now pass.old) }
{
    pass.turns = pass.turns.saturating_add(1);
    table
        .inner
        .shared
        .compare_exchange::<Does<F>>(&mut pass.seat, word, old, new)
}
