//! The text of each command, or why there is none.

ghost use Rattle.std.specs.Prelude.{◌≡◌, ℕ, ◌≤◌, IfOk, IfErr, List, []};
ghost use Rattle.crq_reader.specs.Canonical.{canonical};
ghost use Rattle.crq_sim.specs.Generated.{generated};
ghost use Rattle.crq_sim.specs.Runs.{IsOverWithin, traces_within};
ghost use Rattle.crq_top.specs.Commands.{IsBetween, IsInRange, asked_of, call_of};
ghost use Rattle.crq_top.specs.Lines.{check_line};
ghost use Rattle.crq_top.specs.Meanings.{Names, IsModelOf, IsTextOf, IsCause, IsCauseInFiles, IsEndingOf, IsEndingOfSerial, AreBytesOf, limit_of};
ghost use Rattle.crq_top.specs.Runs.{IsTextOfRun};
ghost use Rattle.crq_top.specs.Sessions.{resources};

use crate::command::{Call, Command};
use crate::ending::Ending;
use crq_io::{Fetch, Files};
use crq_printer::trace_text;
use crq_reader::{FaultNumber, ModelFault, model_text, read_model};
use crq_sim::{Memory, Model, SimEnd, Traces, generate, serial};
use std::alloc::{AllocError, Global};
use std::thread::Threads;

/// What a command reads a file for.
#[derive(Clone, Copy)]
pub enum Role {
    /// The model that it is about.
    Model,
}

impl Role {
    /// How many bytes a file may have in this role.
    fn limit(&self) -> u64
        ensures { result ≡ limit_of self.now }
    {
        match self {
            Role::Model => 16_777_216,
        }
    }
}

/// The bytes of the file that a command reads in a role.
fn bytes_of<F: Files>(
    alloc: Global,
    files: &mut F,
    role: Role,
    name: &str,
    command: &Command,
) -> Result<Vec<u8>, Ending>
    requires { Names (asked_of command.now) role name.now }
    ensures ok { IfOk result (λ bytes. AreBytesOf (F.found files.old) (asked_of command.now) role bytes.items) }
    ensures err { IfErr result (λ e. IsCauseInFiles (record { found = F.found files.old; faults = F.faults files.old }) (record { found = F.found files.new; faults = F.faults files.new }) (asked_of command.now) e) }
    ensures kept { (other : List ℕ) → F.found files.new other ≡ F.found files.old other }
    ensures later { F.faults files.old ≤ F.faults files.new }
{
    match files.fetch(alloc, name, role.limit()) {
        Ok(bytes) => Ok(bytes),
        Err(Fetch::Memory) => Err(Ending::Memory),
        Err(Fetch::Long) => Err(Ending::Long),
        Err(Fetch::Failed) => Err(Ending::Read),
        Err(Fetch::NoFile) => Err(Ending::Read),
    }
}

/// The ending of a text that is no model; want of memory says nothing of the text.
fn ending_of(fault: ModelFault) -> Ending
    ensures { IsEndingOf fault result }
{
    match fault.number {
        FaultNumber::Memory => Ending::Memory,
        _ => Ending::Model(fault),
    }
}

/// The model that the file spells.
pub(crate) fn model_of<F: Files>(
    alloc: Global,
    files: &mut F,
    name: &str,
    command: &Command,
) -> Result<Model, Ending>
    requires { Names (asked_of command.now) Role.Model name.now }
    ensures ok { IfOk result (λ m. IsModelOf (F.found files.old) (asked_of command.now) m) }
    ensures err { IfErr result (λ e. IsCauseInFiles (record { found = F.found files.old; faults = F.faults files.old }) (record { found = F.found files.new; faults = F.faults files.new }) (asked_of command.now) e) }
    ensures kept { (other : List ℕ) → F.found files.new other ≡ F.found files.old other }
    ensures later { F.faults files.old ≤ F.faults files.new }
{
    let bytes = bytes_of(alloc, files, Role::Model, name, command)?;
    match read_model(alloc, bytes.as_slice()) {
        Ok(model) => Ok(model),
        Err(fault) => Err(ending_of(fault)),
    }
}

/// The traces of the serial run, where it has at most `events` events.
fn traces_of(alloc: Global, model: &Model, events: u32) -> Result<Traces, Ending>
    requires { events ≤ 4194304 }
    ensures ok { IfOk result (λ t. IsOverWithin model.now events × (t ≡ traces_within model.now events)) }
    ensures err { IfErr result (λ e. IsEndingOfSerial model.now events e) }
{
    match serial(alloc, model, events) {
        Ok(traces) => Ok(traces),
        Err(SimEnd::Memory) => Err(Ending::Memory),
        Err(SimEnd::Events(window)) => Err(Ending::Events(window)),
    }
}

/// The trace text of the serial run, where it has at most `events` events.
fn serial_text<R: Threads + Sync>(
    rt: &R,
    alloc: Global,
    model: &Model,
    events: u32,
) -> Result<Vec<u8>, Ending>
    requires { events ≤ 4194304 }
    ensures ok { IfOk result (λ t. IsTextOfRun model.now events t.items) }
    ensures err { IfErr result (λ e. IsEndingOfSerial model.now events e) }
{
    let traces = traces_of(alloc, model, events)?;
    match trace_text(rt, alloc, &traces) {
        Ok(text) => Ok(text),
        Err(Memory) => Err(Ending::Memory),
    }
}

/// The line that tells the size of a model.
fn check_text(alloc: Global, model: &Model) -> Result<Vec<u8>, Ending>
    ensures ok { IfOk result (λ t. t.items ≡ check_line model.now) }
    ensures err { IfErr result (λ e. e ≡ Ending.Memory) }
{
    let objects = model.objects().len();
    let starts = model.starts().len();
    let lookahead = model.lookahead();
    let until = model.until();
    match format!(in alloc; "model {objects} {starts} {lookahead} {until}\n") {
        Ok(line) => Ok(line.into_bytes()),
        Err(AllocError) => Err(Ending::Memory),
    }
}

/// The text of a generated model.
fn generated_text(
    alloc: Global,
    seed: u64,
    objects: u32,
    population: u32,
) -> Result<Vec<u8>, Ending>
    requires objects { IsBetween 1 65535 objects }
    requires population { population ≤ 65535 }
    ensures ok { IfOk result (λ t. t.items ≡ canonical (generated seed objects population)) }
    ensures err { IfErr result (λ e. e ≡ Ending.Memory) }
{
    match generate(alloc, seed, objects, population) {
        Ok(model) => canonical_text(alloc, &model),
        Err(Memory) => Err(Ending::Memory),
    }
}

/// The canonical text of a model.
fn canonical_text(alloc: Global, model: &Model) -> Result<Vec<u8>, Ending>
    ensures ok { IfOk result (λ t. t.items ≡ canonical model.now) }
    ensures err { IfErr result (λ e. e ≡ Ending.Memory) }
{
    match model_text(alloc, model) {
        Ok(text) => Ok(text),
        Err(Memory) => Err(Ending::Memory),
    }
}

/// The text of a command that needs no set, or why it has none.
pub(crate) fn text_of<F: Files, R: Threads + Sync>(
    rt: &R,
    alloc: Global,
    command: &Command,
    files: &mut F,
) -> Result<Vec<u8>, Ending>
    requires call { call_of (asked_of command.now) ≡ Call.Inspect }
    requires in_range { IsInRange 0 (asked_of command.now) }
    ensures ok { IfOk result (λ t. IsTextOf (resources F.found F.faults files.old files.new [] []) (asked_of command.now) t.items) }
    ensures err { IfErr result (λ e. IsCause (resources F.found F.faults files.old files.new [] []) (asked_of command.now) e) }
    ensures kept { (other : List ℕ) → F.found files.new other ≡ F.found files.old other }
    ensures later { F.faults files.old ≤ F.faults files.new }
{
    match command {
        Command::Run { .. } => unreachable!(),
        Command::Check { model } => match model_of(alloc, files, model, command) {
            Ok(model) => check_text(alloc, &model),
            Err(ending) => Err(ending),
        },
        Command::Serial { model, events } => match model_of(alloc, files, model, command) {
            Ok(model) => serial_text(rt, alloc, &model, *events),
            Err(ending) => Err(ending),
        },
        Command::Gen {
            seed,
            objects,
            population,
        } => generated_text(alloc, *seed, *objects, *population),
    }
}
