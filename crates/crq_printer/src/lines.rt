//! Lines of a trace text.

ghost use Rattle.std.specs.Prelude.{◌≡◌, ◌+◌, ◌≤◌, ◌∷◌, ◌++◌, length, drop, map, IfOk, OnOk, string_bytes};
ghost use Rattle.std.specs.Fmt.{decimal};
ghost use Rattle.std.specs.List.{concat};
ghost use Rattle.crq_printer.specs.Texts.{heading, step_line};

use crq_sim::{ObjectTrace, Step};
use itoa::write_digits;
use std::alloc::{AllocError, Global};

/// Room for six numbers of at most 20 digits, each with a byte after it.
const LINE_LEN: usize = 126;

/// Writes a number and the byte after it so that they end at `end`, and returns where they start.
#[inline]
fn write_field(number: u64, after: u8, line: &mut [u8], end: usize) -> usize
    requires { (21 ≤ end) × (end ≤ length line.old) }
    ensures start { end ≤ result + 21 }
    ensures within { result ≤ end }
    ensures written { drop result line.new ≡ decimal number ++ (after ∷ drop end line.old) }
{
    line[end - 1] = after;
    write_digits(number, line, end - 1)
}

/// Writes the line of a step so that it ends where `line` ends, and returns where it starts.
#[inline]
fn write_step(step: &Step, line: &mut [u8]) -> usize
    requires { 126 ≤ length line.old }
    ensures within { result ≤ length line.new }
    ensures written { drop result line.new ≡ step_line step.now }
{
    let event = &step.event;
    let word = write_field(step.word, b'\n', line, line.len());
    let count = write_field(step.count, b' ', line, word);
    let load = write_field(event.load, b' ', line, count);
    let seq = write_field(event.seq, b' ', line, load);
    let src = write_field(u64::from(event.src), b' ', line, seq);
    write_field(u64::from(event.time), b' ', line, src)
}

/// Adds the lines of steps to a text.
pub(crate) fn push_steps(text: &mut Vec<u8>, steps: &[Step]) -> Result<(), AllocError>
    ensures { OnOk result (text.new.items ≡ text.old.items ++ concat (map step_line steps.now)) }
{
    let mut line = [0; LINE_LEN];
    for step in steps {
        let start = write_step(step, &mut line);
        text.extend_from_slice(&line[start..])?;
    }
    Ok(())
}

/// The line before the steps of an object.
pub(crate) fn heading(
    alloc: Global,
    number: usize,
    trace: &ObjectTrace,
) -> Result<String, AllocError>
    ensures { IfOk result (λ t. string_bytes t ≡ heading number trace.now) }
{
    let name = trace.name.as_str();
    let kind = trace.behaviour.word();
    let count = trace.steps.len();
    format!(in alloc; "object {number} {name} {kind} {count}\n")
}
