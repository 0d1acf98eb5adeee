//! The loads of the spare word at which all callers are dealt something new, through a seat that carries them all.
ghost use Rattle.std.specs.Prelude.{◌≡◌, ◌<◌, ℕ};
ghost use Rattle.crq_rule.specs.Deals.{HasAll, Gathered, IsSilent, spans};

use atomic_table::{Play, Seat};
use crq_rule::{Table, View};
use std::marker::{Brand, PhantomData};

/// The load at which the history so far is dealt.
struct Gather;

impl Play<(), View> for Gather {
    ghost then = { λ st m r n. Gathered m.0 n.0 × (n.1 ≡ m.1) };
}

/// A span that is dealt.
trait Spanning {
    ghost span: { ℕ };
}

impl Spanning for Brand {
    ghost span = { 1 };
}

/// The load at which a span is dealt.
struct Spans<S: Spanning> {
    of: PhantomData<S>,
}

impl<S: Spanning> Play<(), View> for Spans<S> {
    ghost then = { λ st m r n. n ≡ (spans S.span m.0, m.1) };
}

/// Deals the history so far to all callers.
pub fn gather_step(table: &Table, seat: &mut Seat<(), View>)
    requires of { seat.old.table_id ≡ table.now.inner.shared.table_id }
    requires all { HasAll table.now.start.layout.workers seat.old.me.0 }
    ensures gathered { Gathered seat.old.me.0 seat.new.me.0 }
    ensures same { (seat.new.table_id ≡ seat.old.table_id) × (seat.new.id ≡ seat.old.id) × (seat.new.me.1 ≡ seat.old.me.1) }
{
    table.inner.shared.load::<Gather>(seat, 0);
}

/// Deals the span that is picked where it is called. The pick is made from the argument `span`, which isn't read when the
/// program runs: how many sources a caller has is known of it, and stands in no word.
fn span_as<S: Spanning>(table: &Table, seat: &mut Seat<(), View>, span: u32)
    requires of { seat.old.table_id ≡ table.now.inner.shared.table_id }
    requires all { HasAll table.now.start.layout.workers seat.old.me.0 }
    requires silent { IsSilent seat.old.me.0 }
    requires some_span { 0 < span }
    requires picked { span ≡ S.span }
    ensures spanned { seat.new.me ≡ (spans span seat.old.me.0, seat.old.me.1) }
    ensures same { (seat.new.table_id ≡ seat.old.table_id) × (seat.new.id ≡ seat.old.id) }
{
    table.inner.shared.load::<Spans<S>>(seat, 0);
}

/// Deals so many sources in a row to each caller, where none has made an entry since the last deal. It is one load of the
/// spare word, and `span` is known of the callers alone.
pub fn span_step(table: &Table, seat: &mut Seat<(), View>, span: u32)
    requires of { seat.old.table_id ≡ table.now.inner.shared.table_id }
    requires all { HasAll table.now.start.layout.workers seat.old.me.0 }
    requires silent { IsSilent seat.old.me.0 }
    requires some_span { 0 < span }
    ensures spanned { seat.new.me ≡ (spans span seat.old.me.0, seat.old.me.1) }
    ensures same { (seat.new.table_id ≡ seat.old.table_id) × (seat.new.id ≡ seat.old.id) }
{
    span_as::<Brand>(table, seat, span);
}
