//! What the maker keeps of a run, over plain sets, whose histories can be read.

ghost use Rattle.std.specs.Prelude.{◌≤◌};

use crate::tests::answer;
use crate::tests::models::{PAIR_TEXT, models};
use crq_base::{Entry, judge};
use crq_host::OpenGate;
use crq_set::PlainMaker;
use std::test::Fail;

/// How many events a history took.
fn takes(history: &[Entry]) -> usize {
    history
        .iter()
        .filter(|entry| matches!(entry, Entry::Take(_, _)))
        .count()
}

/// Of each ending: its status, and how many events the new history took, if there is one.
#[test]
fn each_ending_leaves_its_history(rt: HostRuntime) -> Result<(), Fail> {
    let alloc = rt.alloc();
    let rows = [
        ("run pair 1 16 100", 0, Some(3)),
        ("run quiet 1 16 100", 0, Some(0)),
        ("run pair 1 16 2", 7, Some(3)),
        ("run fan 1 65 1000", 8, Some(31)),
        ("run twice 1 4 100", 8, None),
        ("run pair 2 16 100", 1, None),
        ("run not_json 1 16 100", 2, None),
        ("run nowhere 1 16 100", 4, None),
    ];
    for (line, status, taken) in rows {
        let mut maker = PlainMaker::new(alloc);
        let got = answer(&rt, alloc, line, &mut models(alloc)?, &mut maker, &OpenGate)?;
        assert_eq!(rt; got.0, status, "{line}");
        assert_eq!(rt; maker.last().map(takes), taken, "{line}");
        assert_eq!(rt; judge(maker.last().unwrap_or(&[])), Ok(()), "{line}");
    }
    Ok(())
}

/// Where the maker has room for one worker alone.
#[test]
fn one_worker_over_a_plain_set(rt: HostRuntime) -> Result<(), Fail> {
    let alloc = rt.alloc();
    let mut maker = PlainMaker::new(alloc);
    let rows = [
        ("run pair 1 16 100", 0, PAIR_TEXT),
        ("run pair 2 16 100", 1, "fault 1\n"),
    ];
    for (line, status, text) in rows {
        let got = answer(&rt, alloc, line, &mut models(alloc)?, &mut maker, &OpenGate)?;
        assert_eq!(rt; got.0, status, "{line}");
        assert_eq!(rt; got.1.as_slice(), text.as_bytes(), "{line}");
    }
    Ok(())
}
