//! What a drive counts: windows, and the most events that were pending.

ghost use Rattle.std.specs.Prelude.{◌≤◌};

use crate::tests::models::{EDGE, PAIR};
use crq_host::{DriveEnd, OpenGate, drive};
use crq_queue::CalendarMaker;
use crq_reader::read_model;
use std::alloc::Global;
use std::sync::Wait;
use std::test::Fail;
use std::thread::Threads;

/// Windows, peak and tables of a drive of a model that has no fault.
fn counts<R: Threads + Wait + Sync>(
    rt: &R,
    alloc: Global,
    text: &str,
    workers: u32,
    rows: u32,
) -> Result<(u32, u32, usize), DriveEnd>
    requires workers { (1 ≤ workers) × (workers ≤ 16) }
    requires rows { (4 ≤ rows) × (rows ≤ 131072) }
{
    let Ok(model) = read_model(alloc, text.as_bytes()) else {
        return Err(DriveEnd::Memory);
    };
    let mut maker = CalendarMaker::new(alloc);
    let outcome = drive(rt, alloc, &model, 100, workers, rows, &mut maker, &OpenGate)?;
    Ok((outcome.windows, outcome.peak, outcome.tables.len()))
}

/// The start at 5 is at the edge of the first window, and belongs to the second.
#[test]
fn an_event_at_the_edge(rt: HostRuntime) -> Result<(), Fail> {
    let alloc = rt.alloc();
    assert_eq!(rt; counts(&rt, alloc, EDGE, 1, 8), Ok((2, 3, 0)));
    assert_eq!(rt; counts(&rt, alloc, EDGE, 3, 8), Ok((2, 3, 0)));
    assert_eq!(rt; counts(&rt, alloc, EDGE, 1, 7), Err(DriveEnd::Rows(0, 3)));
    assert_eq!(rt; counts(&rt, alloc, EDGE, 16, 7), Err(DriveEnd::Rows(0, 3)));
    Ok(())
}

#[test]
fn one_event_at_a_time(rt: HostRuntime) -> Result<(), Fail> {
    let alloc = rt.alloc();
    assert_eq!(rt; counts(&rt, alloc, PAIR, 1, 4), Ok((3, 1, 0)));
    assert_eq!(rt; counts(&rt, alloc, PAIR, 2, 4), Ok((3, 1, 0)));
    Ok(())
}
