//! Traces from their text.

ghost use Rattle.std.specs.Prelude.{◌≡◌, ℕ, ◌+◌, ◌<◌, ◌≤◌, ◌^◌, List, ◌++◌, ◌⊎◌, Err, All, length, map, IfOk, IfErr};
ghost use Rattle.std.specs.List.{concat};
ghost use Rattle.crq_printer.specs.Texts.{step_line, object_lines, trace_text_of};
ghost use Rattle.crq_printer.specs.Reading.{IsStepOf, IsTraceOf, IsReadable, IsFirstUndue, FaultIs};
ghost use Rattle.crq_sim.specs.declared.traces.ObjectTrace.{ObjectTrace};
ghost use Rattle.crq_printer.specs.Parts.{StepFault, PartFault};

use crate::parts::{read_heading, read_step, skip_end, skip_first};
use crq_sim::{MOST_OBJECTS, Name, ObjectTrace, Sequence, Step, Traces};
use std::alloc::Global;

/// Why a text gives no traces.
#[derive(Clone, Copy, Debug, PartialEq, Eq)]
pub enum TraceFault {
    /// The line with this number, from 1, is the first that isn't what is due there, or the text ends where it is due.
    Line(usize),
    /// Memory was refused.
    Memory,
}

/// The steps of an object, of which the text begins with so many, and the text behind them. The first one is on this line.
fn read_steps(
    alloc: Global,
    text: &[u8],
    number: u32,
    count: u64,
    line: usize,
) -> Result<(Vec<Step>, &[u8]), TraceFault>
    requires { line + length text.now < 2 ^ 64 }
    ensures count { IfOk result (λ p. length p.0.items ≡ count) }
    ensures steps { IfOk result (λ p. All (IsStepOf number) p.0.items) }
    ensures parts { IfOk result (λ p. text.now ≡ concat (map step_line p.0.items) ++ p.1.now) }
    ensures fault { IfErr result (StepFault number count text.now line) }
{
    let mut steps = Vec::new(alloc);
    let mut rest = text;
    for taken in 0..count {
        let Some((step, behind)) = read_step(rest, number) else {
            return Err(TraceFault::Line(line + taken as usize));
        };
        if steps.push(step).is_err() {
            return Err(TraceFault::Memory);
        }
        rest = behind;
    }
    Ok((steps, rest))
}

/// The trace of the object with this number, with which the text begins, and the text behind it. Its heading is on this line.
fn read_object(
    alloc: Global,
    text: &[u8],
    number: u32,
    line: usize,
) -> Result<(ObjectTrace, &[u8]), TraceFault>
    requires { line + length text.now < 2 ^ 64 }
    ensures object { IfOk result (λ p. IsTraceOf number p.0) }
    ensures parts { IfOk result (λ p. text.now ≡ concat (object_lines number p.0) ++ p.1.now) }
    ensures fault { IfErr result (PartFault number text.now line) }
{
    let Some((heading, behind)) = read_heading(text, number) else {
        return Err(TraceFault::Line(line));
    };
    let Ok(name) = Name::from_text(alloc, heading.name) else {
        return Err(TraceFault::Memory);
    };
    let (steps, rest) = match read_steps(alloc, behind, number, heading.count, line + 1) {
        Ok(read) => read,
        Err(fault) => return Err(fault),
    };
    let trace = ObjectTrace {
        name,
        behaviour: heading.behaviour,
        steps: Sequence::from_vec(steps),
    };
    Ok((trace, rest))
}

/// The traces of a text, object by object.
fn traces_of(alloc: Global, text: &[u8]) -> Result<Traces, TraceFault>
    ensures readable { IfOk result (λ ts. IsReadable ts) }
    ensures text { IfOk result (λ ts. trace_text_of ts ≡ text.now) }
    ensures only { (ts : List ObjectTrace) → IsReadable ts → trace_text_of ts ≡ text.now → IfOk result (λ read. read ≡ ts) }
    ensures fault { IfErr result (λ e. FaultIs e text.now) }
{
    let Some(mut rest) = skip_first(text) else {
        return Err(TraceFault::Line(1));
    };
    let mut traces = Vec::new(alloc);
    let mut total = 0u64;
    let mut line = 2usize;
    loop {
        if let Some(behind) = skip_end(rest, total) {
            if behind.is_empty() {
                return Ok(Sequence::from_vec(traces));
            }
            return Err(TraceFault::Line(line + 1));
        }
        if traces.len() >= MOST_OBJECTS {
            return Err(TraceFault::Line(line));
        }
        let (trace, behind) = match read_object(alloc, rest, traces.len() as u32 + 1, line) {
            Ok(read) => read,
            Err(fault) => return Err(fault),
        };
        let count = trace.steps.len();
        if traces.push(trace).is_err() {
            return Err(TraceFault::Memory);
        }
        total += count as u64;
        line += 1 + count;
        rest = behind;
    }
}

/// The traces of a text, in one pass over it.
///
/// A text is read only as `trace_text` writes it. A step's destination, which the text doesn't say, is the number of its object.
///
/// A line is due by what was read before it: the first line, then the heading of the next object, a step of the present
/// object while its heading's count says that some are left, or the last line with the number of all steps. The first
/// line that isn't due is named, also where the text ends before it. A count takes no memory before its steps are read.
pub fn read_traces(alloc: Global, text: &[u8]) -> Result<Traces, TraceFault>
    ensures readable { IfOk result (λ ts. IsReadable ts) }
    ensures text { IfOk result (λ ts. trace_text_of ts ≡ text.now) }
    ensures only { (ts : List ObjectTrace) → IsReadable ts → trace_text_of ts ≡ text.now → IfOk result (λ read. read ≡ ts) }

    // A line is named only where it is the first that isn't due, and there, but for want of memory.
    ensures fault { IfErr result (λ e. FaultIs e text.now) }
    ensures exactly { (n : ℕ) → IsFirstUndue n text.now → (result ≡ Err (TraceFault.Line n)) ⊎ (result ≡ Err TraceFault.Memory) }
{
    traces_of(alloc, text)
}
