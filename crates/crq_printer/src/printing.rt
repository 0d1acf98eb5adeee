//! The trace text.

ghost use Rattle.std.specs.Prelude.{◌≡◌, ◌+◌, ◌<◌, ◌^◌, ℕ, ◌∷◌, ◌++◌, [], codes, length, IfOk, OnOk, SomeIff, min, vec_len};
ghost use Rattle.std.specs.Fmt.{decimal};
ghost use Rattle.std.specs.List.{concat, flat_map, sum_by};
ghost use Rattle.crq_printer.specs.Texts.{line, object_lines, lines_from, steps_in, trace_text_of};

use crate::lines::{heading, push_steps};
use crq_sim::{Memory, ObjectTrace, Traces};
use rayon::prelude::*;
use std::alloc::{AllocError, Global};
use std::thread::Threads;

/// How many steps there are, if 64 bits can say it.
pub(crate) fn steps_in(traces: &[ObjectTrace]) -> Option<u64>
    ensures { SomeIff result (steps_in traces.now < 2 ^ 64) (steps_in traces.now) }
{
    let mut total = 0u64;
    for trace in traces {
        total = total.checked_add(trace.steps.len() as u64)?;
    }
    Some(total)
}

/// The lines of one object.
fn piece(alloc: Global, number: usize, trace: &ObjectTrace) -> Result<Vec<u8>, AllocError>
    ensures { IfOk result (λ p. p.items ≡ concat (object_lines number trace.now)) }
{
    let mut text = heading(alloc, number, trace)?.into_bytes();
    push_steps(&mut text, trace.steps.as_slice())?;
    text.shrink_to_fit();
    Ok(text)
}

/// The lines of each object, made side by side and kept in the order of the objects.
fn pieces<R: Threads + Sync>(
    rt: &R,
    alloc: Global,
    traces: &[ObjectTrace],
) -> Result<Vec<Vec<u8>>, AllocError>
    ensures { IfOk result (λ ps. flat_map (λ p. p.items) ps.items ≡ concat (lines_from 1 traces.now)) }
{
    traces
        .par_iter()
        .enumerate()
        .map(
            |place: (usize, &ObjectTrace)| -> Result<Vec<u8>, AllocError>
                requires { place.0 + 1 < 2 ^ 64 }
                ensures { IfOk result (λ p. p.items ≡ concat (object_lines (place.entry.0 + 1) place.entry.1.now)) }
            { piece(alloc, place.0 + 1, place.1) },
        )
        .collect(rt, alloc)?
}

/// How long the pieces are together, if that can be said.
fn total_len(pieces: &[Vec<u8>]) -> usize
    ensures { result ≡ min (sum_by (λ p. vec_len p) pieces.now) usize.MAX }
{
    let mut total = 0usize;
    for piece in pieces {
        total = total.saturating_add(piece.len());
    }
    total
}

/// Adds the pieces to a text in their order.
fn push_pieces(text: &mut Vec<u8>, pieces: &[Vec<u8>]) -> Result<(), AllocError>
    ensures { OnOk result (text.new.items ≡ text.old.items ++ flat_map (λ p. p.items) pieces.now) }
{
    for piece in pieces {
        text.extend_from_slice(piece.as_slice())?;
    }
    Ok(())
}

/// The first line, the pieces in their order and the last line.
fn joined(alloc: Global, pieces: &[Vec<u8>], total: u64) -> Result<Vec<u8>, AllocError>
    ensures { IfOk result (λ t. t.items ≡ (codes "trace 1\n" ++ flat_map (λ p. p.items) pieces.now) ++ line (codes "end" ∷ decimal total ∷ [])) }
{
    let end = format!(in alloc; "end {total}\n")?;
    let mut text = Vec::from_slice(alloc, b"trace 1\n")?;
    text.reserve_exact(total_len(pieces).saturating_add(end.len()))?;
    push_pieces(&mut text, pieces)?;
    text.extend_from_slice(end.as_bytes())?;
    Ok(text)
}

/// The trace text of traces with so many steps.
fn text_of<R: Threads + Sync>(
    rt: &R,
    alloc: Global,
    traces: &[ObjectTrace],
    total: u64,
) -> Result<Vec<u8>, AllocError>
    requires { steps_in traces.now ≡ total }
    ensures { IfOk result (λ t. t.items ≡ trace_text_of traces.now) }
{
    let pieces = pieces(rt, alloc, traces)?;
    joined(alloc, pieces.as_slice(), total)
}

/// The text of traces, one piece for each object made side by side and joined in order.
///
/// The first line says the format. Then comes a heading for each object, with its number, name, kind and the number
/// of its steps, and after it a line for each step. The last line has the number of all steps.
pub fn trace_text<R: Threads + Sync>(
    rt: &R,
    alloc: Global,
    traces: &Traces,
) -> Result<Vec<u8>, Memory>
    ensures { IfOk result (λ text. text.items ≡ trace_text_of traces.now) }
{
    // Memory can't hold more steps than 64 bits can count.
    let Some(total) = steps_in(traces.as_slice()) else {
        return Err(Memory);
    };
    Ok(text_of(rt, alloc, traces.as_slice(), total)?)
}
