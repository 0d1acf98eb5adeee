//! Reading the event of a row, word by word.
ghost use Rattle.std.specs.Prelude.{◌≡◌, ◌+◌, ◌<◌, ◌≤◌, ℕ};
ghost use Rattle.crq_base.specs.declared.event.Event.{Event};
ghost use Rattle.crq_base.specs.declared.kinds.StepKind.TheVariants.{Read};
ghost use Rattle.crq_rule.specs.Places.{index};
ghost use Rattle.crq_rule.specs.ListKinds.{StandsOn, row_place};
ghost use Rattle.crq_rows.specs.Passes.{caller, IsPassOf, Stepped, load_made};
ghost use Rattle.crq_rows.specs.Reading.{stays};
ghost use Rattle.crq_move.specs.Reads.{IsRead, unread};

use crq_base::Event;
use crq_rows::{Pass, Table, read_step};

/// An event of which nothing was read yet.
pub(crate) fn unread() -> Event
    ensures { result ≡ unread }
{
    Event {
        time: 0,
        dst: 0,
        src: 0,
        seq: 0,
        load: 0,
    }
}

/// Reads one word of the event of a row on which the pass stands, and answers what was read of that event so far: at place 2
/// stand its time and destination, at 3 its source, at 4 its number and at 5 its load.
pub(crate) fn read_word(table: &Table, pass: &mut Pass, row: u32, place: u32, read: Event) -> Event
    requires of { IsPassOf table.now pass.old }
    requires stands { (e : Event) × StandsOn (caller table.now pass.old).position.rows row e }
    requires place { (2 ≤ place) × (place < 6) }
    ensures stepped { (word : ℕ) × Stepped table.now pass.old pass.new (load_made Read (index table.now.start.layout (row_place row place)) word) stays }
    ensures read { (e : Event) → StandsOn (caller table.now pass.old).position.rows row e → IsRead place read e → IsRead (place + 1) result e }
{
    let word = read_step(table, pass, row, place);
    match place {
        2 => Event {
            time: (word >> 32) as u32,
            dst: (word % (1 << 32)) as u32,
            ..read
        },
        3 => Event {
            src: word as u32,
            ..read
        },
        4 => Event { seq: word, ..read },
        _ => Event { load: word, ..read },
    }
}
