//! A new table.
ghost use Rattle.std.specs.Prelude.{◌≡◌, ◌+◌, ◌*◌, ◌^◌, ◌<◌, ◌≤◌, ℕ, IfOk, length, slice_set, replicate};
ghost use Rattle.crq_base.specs.Starts.{IsFirst};
ghost use Rattle.crq_base.specs.Words.{IsLink};
ghost use Rattle.crq_rule.specs.Opening.{IsOpening, IsFresh, AreFresh, headed, opening_head, opening_words};
ghost use Rattle.crq_rule.specs.Places.{Shows};

use crate::debts::Debts;
use crate::layout::{BANK, Layout, Start};
use crate::pass::{Rest, Seating, Table};
use crate::view::View;
use atomic_table::Seat;
use crq_base::{Control, Current, First, Link, Mark};
use std::alloc::{AllocError, Global};
use std::collections::VecDeque;

/// A new table, the seat that carries all callers, and the places of their passes, each with its list of free rows. Its
/// words and that seat stand for a state that meets the invariant, in which no caller has made a step.
#[derive(Drop)]
pub struct Opened {
    /// The table.
    pub table: Table,
    /// The one seat.
    pub seat: Seat<(), View>,
    /// A place for each caller.
    pub places: Vec<Seating>,
}

/// A new table has 2 to the power of this many lists.
const LOG: u32 = 3;

/// The number of lists of a new table.
const LISTS: usize = 1 << LOG;

/// As many zeros.
fn zeros(alloc: Global, count: usize) -> Result<Vec<u64>, AllocError>
    ensures { IfOk result (λ v. v.items ≡ replicate count 0) }
{
    let mut words = Vec::new(alloc);
    words.resize(count, 0)?;
    Ok(words)
}

/// Sets one word.
fn set_word(words: &mut Vec<u64>, at: usize, word: u64)
    requires { at < length words.old.items }
    ensures { words.new.items ≡ slice_set words.old.items at word }
{
    words[at] = word;
}

/// The link of one head, numbered over both banks: open where it is a list of the first generation's table, and shut
/// else.
fn first_link(generation: u32, head: usize) -> Link
    requires generation { generation < 2 ^ 30 }
    requires head { head < 65536 }
    ensures link { result ≡ opening_head generation head }
    ensures bits { IsLink result }
{
    let first = (generation % 2 * BANK) as usize;
    if first <= head && head < first + LISTS {
        Link {
            generation,
            row: 0,
            mark: Mark::Val,
        }
    } else {
        Link {
            generation: 0,
            row: 0,
            mark: Mark::Mov,
        }
    }
}

/// Sets the links of all heads of both banks.
fn set_heads(start: &Start, words: &mut Vec<u64>)
    requires first { IsFirst start.now.first }
    requires words { Shows start.now.layout (headed start.now 0) words.old.items }
    ensures { Shows start.now.layout (headed start.now 65536) words.new.items }
{
    for head in 0..2 * BANK as usize {
        let link = first_link(start.first.generation, head);
        set_word(words, start.layout.head(head), link.pack());
    }
}

/// The words of a new table.
fn words_of(alloc: Global, start: &Start) -> Result<Vec<u64>, AllocError>
    requires { IsFirst start.now.first }
    ensures { IfOk result (λ v. Shows start.now.layout (opening_words start.now) v.items) }
{
    let layout = start.layout;
    let control = Control {
        generation: start.first.generation,
        moving: false,
        log: LOG,
        shift: 0,
        new_log: 0,
        new_shift: 0,
    };
    let current = Current {
        epoch: start.first.epoch,
        tick: 0,
    };
    let mut words = zeros(alloc, layout.width())?;
    set_word(&mut words, layout.epoch(), start.first.guard);
    set_word(&mut words, layout.control(), control.pack());
    set_word(&mut words, layout.current(), current.pack());
    set_heads(start, &mut words);
    Ok(words)
}

/// All home rows of a caller, free.
fn fresh_rest(alloc: Global, layout: &Layout, number: u32) -> Result<Rest, AllocError>
    requires { number < layout.now.workers }
    ensures { IfOk result (λ rest. IsFresh layout.now number rest) }
{
    let first = number * layout.home;
    let mut free = VecDeque::with_capacity(alloc, layout.home as usize)?;
    for row in 0..layout.home {
        free.push_back(first + row + 1)?;
    }
    Ok(Rest {
        free,
        debts: Debts {
            settle: None,
            copy: None,
            cut: None,
            second_cut: None,
        },
    })
}

/// A place for each caller.
fn places_of(alloc: Global, layout: &Layout) -> Result<Vec<Seating>, AllocError>
    ensures { IfOk result (λ places. AreFresh layout.now layout.now.workers places.items) }
{
    let mut places = Vec::with_capacity(alloc, layout.workers as usize)?;
    for number in 0..layout.workers {
        places.push(Seating::Resting(fresh_rest(alloc, layout, number)?))?;
    }
    Ok(places)
}

/// A new table, in which all rows are free at their home and nothing is put. It takes all memory that the table and its
/// passes ever take, and answers an error only where there is none. Unless it `moves`, no caller may announce another
/// table behind it.
pub fn open_table(
    alloc: Global,
    layout: &Layout,
    first: First,
    moves: bool,
) -> Result<Opened, AllocError>
    requires { IsFirst first }
    ensures { IfOk result (λ opened. IsOpening (record { layout = layout.now; first = first; moves = moves }) opened.table opened.seat opened.places.items) }
{
    let start = Start {
        layout: *layout,
        first,
        moves,
    };
    let places = places_of(alloc, layout)?;
    let words = words_of(alloc, &start)?;
    let (inner, seat) = atomic_table::Table::of_words(alloc, words.as_slice(), &start)?;
    Ok(Opened {
        table: Table { inner, start },
        seat,
        places,
    })
}
