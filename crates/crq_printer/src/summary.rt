//! The summary of a run.

ghost use Rattle.std.specs.Prelude.{◌≡◌, ◌+◌, ◌*◌, ◌%◌, ◌^◌, length, max, IfOk, string_bytes};
ghost use Rattle.std.specs.List.{concat, fold, sum_by};
ghost use Rattle.crq_printer.specs.Texts.{all_steps, last_time, step_sum, summary_lines, summary_text_of};

use crate::printing::steps_in;
use crq_sim::{Memory, ObjectTrace, Outcome, Step};
use std::alloc::{AllocError, Global};

/// The greatest of a time and the times of steps.
fn latest(steps: &[Step], so_far: u32) -> u32
    ensures { result ≡ fold (λ t s. max t s.event.time) so_far steps.now }
{
    let mut latest = so_far;
    for step in steps {
        latest = latest.max(step.event.time);
    }
    latest
}

/// The greatest time of a step, or 0.
fn last_time(traces: &[ObjectTrace]) -> u32
    ensures { result ≡ last_time (all_steps traces.now) }
{
    let mut last = 0;
    for trace in traces {
        last = latest(trace.steps.as_slice(), last);
    }
    last
}

/// The product of a time and a source, each plus one, modulo 2 to the power of 64.
fn key_product(time: u32, source: u32) -> u64
    ensures { result ≡ (time + 1) * (source + 1) % 2 ^ 64 }
{
    (u64::from(time) + 1).wrapping_mul(u64::from(source) + 1)
}

/// What a step adds to the sum, modulo 2 to the power of 64.
fn step_sum(step: &Step) -> u64
    ensures { result ≡ step_sum step.now % 2 ^ 64 }
{
    key_product(step.event.time, step.event.src)
        .wrapping_add(step.event.load)
        .wrapping_add(step.word)
}

/// The sum over steps after what was summed up before, modulo 2 to the power of 64.
fn sum_after(so_far: u64, steps: &[Step]) -> u64
    ensures { result ≡ (so_far + sum_by step_sum steps.now) % 2 ^ 64 }
{
    let mut sum = so_far;
    for step in steps {
        sum = sum.wrapping_add(step_sum(step));
    }
    sum
}

/// The sum over all steps, modulo 2 to the power of 64.
fn total_sum(traces: &[ObjectTrace]) -> u64
    ensures { result ≡ sum_by step_sum (all_steps traces.now) % 2 ^ 64 }
{
    let mut sum = 0;
    for trace in traces {
        sum = sum_after(sum, trace.steps.as_slice());
    }
    sum
}

/// The lines of the summary.
fn text_of(alloc: Global, outcome: &Outcome, events: u64) -> Result<String, AllocError>
    ensures { IfOk result (λ t. string_bytes t ≡ concat (summary_lines (length outcome.now.traces) events outcome.now.windows (length outcome.now.tables) outcome.now.peak
        (last_time (all_steps outcome.now.traces)) (sum_by step_sum (all_steps outcome.now.traces) % 2 ^ 64))) }
{
    let objects = outcome.traces.len();
    let windows = outcome.windows;
    let tables = outcome.tables.len();
    let peak = outcome.peak;
    let last = last_time(outcome.traces.as_slice());
    let sum = total_sum(outcome.traces.as_slice());
    format!(in alloc;
        "objects {objects}\nevents {events}\nwindows {windows}\ntables {tables}\npeak {peak}\nlast {last}\nsum {sum}\n"
    )
}

/// The summary of a run, a line for each number: objects, events, windows, tables that were opened after the first
/// one, the greatest number of pending events, the greatest time of an event, and a sum over all steps.
///
/// The sum is that of `(time + 1) * (src + 1) + load + word`, modulo 2 to the power of 64, so that runs which differ
/// in a single step mostly differ in it.
#[tactic(auto, unfolding(crate::specs::Texts::summary_text_of))]
pub fn summary_text(alloc: Global, outcome: &Outcome) -> Result<Vec<u8>, Memory>
    ensures { IfOk result (λ text. text.items ≡ summary_text_of outcome.now) }
{
    // Memory can't hold more steps than 64 bits can count.
    let Some(events) = steps_in(outcome.traces.as_slice()) else {
        return Err(Memory);
    };
    Ok(text_of(alloc, outcome, events)?.into_bytes())
}
