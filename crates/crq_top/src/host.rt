//! The program over the host.

ghost use Rattle.std.specs.Prelude.{◌≡◌};
ghost use Rattle.std.specs.Process.{exit_status};
ghost use Rattle.crq_top.specs.Performed.{IsExitOfProgram};

use crate::performing::program;
use crq_host::Gate;
use crq_io::{HostFiles, HostSink};
use crq_set::SetMaker;
use std::alloc::Global;
use std::env::Env;
use std::process::ExitCode;
use std::rt::Files;
use std::sync::Wait;
use std::thread::Threads;

/// The program over the host: its command line, its files, its standard output, and `errors`, which is its standard error, with
/// a maker of sets and a gate. This is all that a `main` has to call, and its answer is the exit status.
pub fn on_host<R: Files + Env + Print + Threads + Wait + Sync, E: Print, M: SetMaker, G: Gate>(
    host: &R,
    alloc: Global,
    errors: &E,
    maker: &mut M,
    gate: &G,
) -> ExitCode
    ensures exits { IsExitOfProgram M.MOST (M.closed maker.old) (M.closed maker.new) (exit_status result) }
    ensures room { M.room maker.new ≡ M.room maker.old }
{
    program(
        host,
        host,
        alloc,
        &mut HostFiles::new(host),
        &mut HostSink::new(host),
        &mut HostSink::new(errors),
        maker,
        gate,
    )
}
