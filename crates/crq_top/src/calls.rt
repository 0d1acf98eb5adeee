//! The two top calls.

ghost use Rattle.std.specs.Prelude.{◌≡◌, [], map, string_bytes};
ghost use Rattle.crq_top.specs.Commands.{AsksNothing, of_run, of_inspect};
ghost use Rattle.crq_top.specs.Sessions.{session, resources};
ghost use Rattle.crq_top.specs.Statuses.{EndsAs, Means, Comes, CanGoOn};

use crate::command::{Call, command_for};
use crate::ending::{Ending, Status};
use crate::output::conclude;
use crate::running::run_text;
use crate::texts::text_of;
use crq_host::Gate;
use crq_io::{Files, Sink};
use crq_set::SetMaker;
use std::alloc::Global;
use std::sync::Wait;
use std::thread::Threads;

/// `run` with the numbers that its status leaves out.
///
/// It is due to end with the text of the command that the words ask it for, or with an ending that has its cause; and it
/// wrote that, or was cut off by a counted fault of writing. The devices can go on to another call. Where the words ask for no
/// command the files weren't touched. A set that was made is closed, so the maker has room for as many histories as before.
pub fn run_to_ending<F: Files, S: Sink, M: SetMaker, G: Gate, R: Threads + Wait + Sync>(
    rt: &R,
    alloc: Global,
    words: &[String],
    files: &mut F,
    out: &mut S,
    maker: &mut M,
    gate: &G,
) -> Ending
    ensures ends { EndsAs (of_run M.MOST (map string_bytes words.now))
        (session (resources F.found F.faults files.old files.new (M.closed maker.old) (M.closed maker.new)) S.written S.faults out.old out.new) result }
    ensures untouched { AsksNothing (of_run M.MOST (map string_bytes words.now)) → files.new ≡ files.old }
    ensures room { M.room maker.new ≡ M.room maker.old }
{
    let due = match command_for(Call::Run, M::MOST, words) {
        Some(command) => run_text(rt, alloc, &command, files, maker, gate),
        None => Err(Ending::Usage),
    };
    conclude(out, due)
}

/// `inspect` with the numbers that its status leaves out, as of `run_to_ending`.
pub fn inspect_to_ending<F: Files, S: Sink, R: Threads + Sync>(
    rt: &R,
    alloc: Global,
    words: &[String],
    files: &mut F,
    out: &mut S,
) -> Ending
    ensures ends { EndsAs (of_inspect (map string_bytes words.now))
        (session (resources F.found F.faults files.old files.new [] []) S.written S.faults out.old out.new) result }
    ensures untouched { AsksNothing (of_inspect (map string_bytes words.now)) → files.new ≡ files.old }
{
    let due = match command_for(Call::Inspect, 0, words) {
        Some(command) => text_of(rt, alloc, &command, files),
        None => Err(Ending::Usage),
    };
    conclude(out, due)
}

/// `run MODEL WORKERS ROWS EVENTS`: reads a model, runs it in lookahead windows by that many workers over a set that the maker
/// makes, with that many rows each, and prints the trace of each of its objects.
///
/// WORKERS is 1 to the maker's `MOST`. For each number of workers the bytes that are printed are the trace text of the run of
/// the model over one event list. Each other ending has its status, its cause and, but for want of memory and a failed write,
/// its line. The set is closed in any case, so the maker has its history.
pub fn run<F: Files, S: Sink, M: SetMaker, G: Gate, R: Threads + Wait + Sync>(
    rt: &R,
    alloc: Global,
    words: &[String],
    files: &mut F,
    out: &mut S,
    maker: &mut M,
    gate: &G,
) -> Status
    // What each status tells, and where each must come.
    ensures means { Means (of_run M.MOST (map string_bytes words.now))
        (session (resources F.found F.faults files.old files.new (M.closed maker.old) (M.closed maker.new)) S.written S.faults out.old out.new) result }
    ensures comes { Comes (of_run M.MOST (map string_bytes words.now))
        (session (resources F.found F.faults files.old files.new (M.closed maker.old) (M.closed maker.new)) S.written S.faults out.old out.new) result }

    // Another call on these devices can follow; and without a command the files weren't touched.
    ensures goes_on { CanGoOn (session (resources F.found F.faults files.old files.new (M.closed maker.old) (M.closed maker.new)) S.written S.faults out.old out.new) }
    ensures untouched { AsksNothing (of_run M.MOST (map string_bytes words.now)) → files.new ≡ files.old }
    ensures room { M.room maker.new ≡ M.room maker.old }
{
    run_to_ending(rt, alloc, words, files, out, maker, gate).status()
}

/// `check MODEL` prints the size of a model, `serial MODEL EVENTS` the trace text of its serial run, and
/// `gen SEED OBJECTS POPULATION` the text of a generated model. It takes no handle to wait, and always returns.
pub fn inspect<F: Files, S: Sink, R: Threads + Sync>(
    rt: &R,
    alloc: Global,
    words: &[String],
    files: &mut F,
    out: &mut S,
) -> Status
    // As of `run`; it is handed no maker.
    ensures means { Means (of_inspect (map string_bytes words.now))
        (session (resources F.found F.faults files.old files.new [] []) S.written S.faults out.old out.new) result }
    ensures comes { Comes (of_inspect (map string_bytes words.now))
        (session (resources F.found F.faults files.old files.new [] []) S.written S.faults out.old out.new) result }
    ensures goes_on { CanGoOn (session (resources F.found F.faults files.old files.new [] []) S.written S.faults out.old out.new) }
    ensures untouched { AsksNothing (of_inspect (map string_bytes words.now)) → files.new ≡ files.old }
{
    inspect_to_ending(rt, alloc, words, files, out).status()
}
