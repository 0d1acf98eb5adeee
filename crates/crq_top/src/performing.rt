//! The whole program over any devices: the call to which the words belong, the explanation of its ending, and the exit status.

ghost use Rattle.std.specs.Prelude.{◌≡◌, ◌≢◌, ◌⊎◌, ℕ, List, map, string_bytes};
ghost use Rattle.std.specs.Process.{exit_status};
ghost use Rattle.crq_top.specs.Endings.{code_of};
ghost use Rattle.crq_top.specs.Explained.{explained};
ghost use Rattle.crq_top.specs.Performed.{Ends, Explains, Performs, RanOn, IsUnread, GivesUp, Says, SaysLine, call_for};
ghost use Rattle.crq_top.specs.Sessions.{session, resources, sink_session};

use crate::calls::{inspect_to_ending, run_to_ending};
use crate::command::Call;
use crate::ending::{Ending, Status};
use crate::explanation::{Explanation, explanation_of};
use crq_host::Gate;
use crq_io::{Files, Sink, write_whole};
use crq_set::SetMaker;
use std::alloc::Global;
use std::env::{self, Env};
use std::io::ErrorKind;
use std::process::ExitCode;
use std::sync::Wait;
use std::thread::Threads;

/// The call to which the words belong: `run` where they begin so, else `inspect`.
fn call_for(words: &[String]) -> Call
    ensures { result ≡ call_for (map string_bytes words.now) }
{
    match words.first() {
        Some(word) if word.as_str() == "run" => Call::Run,
        _ => Call::Inspect,
    }
}

/// Makes the call.
fn make_call<F: Files, S: Sink, M: SetMaker, G: Gate, R: Threads + Wait + Sync>(
    rt: &R,
    alloc: Global,
    call: Call,
    words: &[String],
    files: &mut F,
    out: &mut S,
    maker: &mut M,
    gate: &G,
) -> Ending
    ensures ends { Ends call M.MOST (map string_bytes words.now)
        (session (resources F.found F.faults files.old files.new (M.closed maker.old) (M.closed maker.new)) S.written S.faults out.old out.new) result }
    ensures room { M.room maker.new ≡ M.room maker.old }
{
    match call {
        Call::Run => run_to_ending(rt, alloc, words, files, out, maker, gate),
        Call::Inspect => inspect_to_ending(rt, alloc, words, files, out),
    }
}

/// Said where memory for what should be said was refused.
const MEMORY_REFUSED: &str = "crq: memory was refused\n";

/// Writes a line of the program, or what the stream takes of it. What it doesn't take is counted there.
fn say<E: Sink>(errors: &mut E, line: &str)
    ensures { Says (sink_session E.written E.faults errors.old errors.new) line.now }
{
    let _written = write_whole(errors, line.as_bytes());
}

/// Writes the line of an explanation, or where memory for it is refused that it was.
fn tell<E: Sink>(alloc: Global, explanation: &Explanation, errors: &mut E)
    ensures { SaysLine (sink_session E.written E.faults errors.old errors.new) (explained explanation.now) }
{
    match format!(in alloc; "{explanation}\n") {
        Ok(line) => say(errors, line.as_str()),
        Err(_) => say(errors, MEMORY_REFUSED),
    }
}

/// Writes the explanation of an ending other than Ok. The status is known by then, and stands where this fails.
fn explain<E: Sink>(alloc: Global, most: u32, ending: &Ending, words: &[String], errors: &mut E)
    ensures { Explains most (map string_bytes words.now) ending.now (sink_session E.written E.faults errors.old errors.new) }
{
    match ending {
        Ending::Ok => {}
        _ => {
            let explanation = explanation_of(most, ending, words);
            tell(alloc, &explanation, errors);
        }
    }
}

/// Makes the call to which the words belong, explains an ending other than Ok on `errors`, and answers the status.
pub fn perform<F: Files, S: Sink, E: Sink, M: SetMaker, G: Gate, R: Threads + Wait + Sync>(
    rt: &R,
    alloc: Global,
    words: &[String],
    files: &mut F,
    out: &mut S,
    errors: &mut E,
    maker: &mut M,
    gate: &G,
) -> Status
    ensures performs { Performs M.MOST (map string_bytes words.now)
        (session (resources F.found F.faults files.old files.new (M.closed maker.old) (M.closed maker.new)) S.written S.faults out.old out.new)
        (sink_session E.written E.faults errors.old errors.new) result }
    ensures room { M.room maker.new ≡ M.room maker.old }
{
    let ending = make_call(rt, alloc, call_for(words), words, files, out, maker, gate);
    explain(alloc, M::MOST, &ending, words, errors);
    ending.status()
}

/// The words of the command line after the program's name. A word that isn't UTF-8 is an error.
fn words_of<V: Env>(env: &V, alloc: Global) -> Result<Vec<String>, ErrorKind> {
    let mut args = match env::args(&(env, alloc)) {
        Ok(args) => args,
        Err(error) => return Err(error.kind()),
    };
    let _program = args.next();
    let mut words = Vec::new(alloc);
    for word in args {
        if words.push(word).is_err() {
            return Err(ErrorKind::OutOfMemory);
        }
    }
    Ok(words)
}

/// Says that the words couldn't be read, and answers the status of that.
fn give_up<E: Sink>(kind: ErrorKind, errors: &mut E) -> Status
    ensures memory { kind ≡ ErrorKind.OutOfMemory → result ≡ Status.Memory }
    ensures usage { kind ≢ ErrorKind.OutOfMemory → result ≡ Status.Usage }
    ensures says { GivesUp (sink_session E.written E.faults errors.old errors.new) result }
{
    match kind {
        ErrorKind::OutOfMemory => {
            say(errors, MEMORY_REFUSED);
            Status::Memory
        }
        _ => {
            say(errors, "crq: a word of the command line isn't UTF-8\n");
            Status::Usage
        }
    }
}

/// The program: makes the call to which the words of the command line belong, explains an ending other than Ok on `errors`,
/// and answers the exit status. Where a word isn't UTF-8 it makes no call and writes nothing to `out`, and the status is 1.
pub fn program<F: Files, S: Sink, E: Sink, M: SetMaker, G: Gate, R: Threads + Wait + Sync, V: Env>(
    rt: &R,
    env: &V,
    alloc: Global,
    files: &mut F,
    out: &mut S,
    errors: &mut E,
    maker: &mut M,
    gate: &G,
) -> ExitCode
    ensures runs { RanOn M.MOST (session (resources F.found F.faults files.old files.new (M.closed maker.old) (M.closed maker.new)) S.written S.faults out.old out.new)
        (sink_session E.written E.faults errors.old errors.new) (exit_status result)
        ⊎ (IsUnread (sink_session E.written E.faults errors.old errors.new) (exit_status result) × (files.new ≡ files.old) × (out.new ≡ out.old) × (maker.new ≡ maker.old)) }
    ensures room { M.room maker.new ≡ M.room maker.old }
{
    let status = match words_of(env, alloc) {
        Ok(words) => perform(rt, alloc, words.as_slice(), files, out, errors, maker, gate),
        Err(kind) => give_up(kind, errors),
    };
    ExitCode::from(status.code())
}
