//! Devices that fail.

use crate::tests::models::{PAIR, PAIR_TEXT, models};
use crate::tests::words_of;
use crq_host::OpenGate;
use crq_io::{MemFiles, MemSink};
use crq_set::PlainMaker;
use crq_top::run;
use std::test::Fail;

/// Each write may take 10 bytes, and the call of this number fails.
#[test]
fn writes_that_fail(rt: HostRuntime) -> Result<(), Fail> {
    let alloc = rt.alloc();
    let mut files = models(alloc)?;
    let mut maker = PlainMaker::new(alloc);
    let words = words_of(alloc, "run pair 1 16 100")?;
    for call in 1..11u64 {
        let mut out = MemSink::new(alloc, 1000, 10, &[call])?;
        let status = run(
            &rt,
            alloc,
            words.as_slice(),
            &mut files,
            &mut out,
            &mut maker,
            &OpenGate,
        );
        let (wanted, held) = if call < 10 {
            (5, (call as usize - 1) * 10)
        } else {
            (0, 89)
        };
        assert_eq!(rt; status.code(), wanted, "call {call}");
        assert_eq!(rt; out.bytes(), &PAIR_TEXT.as_bytes()[..held], "call {call}");
    }
    let usage = words_of(alloc, "run pair 0 16 100")?;
    let mut deaf = MemSink::new(alloc, 1000, 10, &[1])?;
    let status = run(
        &rt,
        alloc,
        usage.as_slice(),
        &mut files,
        &mut deaf,
        &mut maker,
        &OpenGate,
    );
    assert_eq!(rt; status.code(), 5);
    assert_eq!(rt; deaf.bytes().len(), 0);
    Ok(())
}

/// A source that fails its first call serves the second.
#[test]
fn a_read_that_fails(rt: HostRuntime) -> Result<(), Fail> {
    let alloc = rt.alloc();
    let mut files = MemFiles::new(alloc, &[1])?;
    files.add(alloc, "pair", PAIR.as_bytes())?;
    let mut maker = PlainMaker::new(alloc);
    let words = words_of(alloc, "run pair 1 16 100")?;
    for wanted in [4, 0] {
        let mut out = MemSink::new(alloc, 1000, 1000, &[])?;
        let status = run(
            &rt,
            alloc,
            words.as_slice(),
            &mut files,
            &mut out,
            &mut maker,
            &OpenGate,
        );
        assert_eq!(rt; status.code(), wanted);
    }
    Ok(())
}
