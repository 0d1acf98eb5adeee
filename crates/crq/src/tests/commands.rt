//! What each command prints, and its status.

use crate::tests::answer;
use crate::tests::models::{
    HOLD_TEXT, MADE_TEXT, MEETING_TEXT, PAIR_TEXT, QUIET_TEXT, STATION_TEXT, changed_pair, models,
    self_relays,
};
use crq_host::OpenGate;
use crq_io::MemFiles;
use crq_queue::CalendarMaker;
use std::alloc::Global;
use std::process::Abort;
use std::sync::Wait;
use std::test::Fail;
use std::thread::Threads;

/// Makes calls over calendars, and compares their statuses and texts.
fn compare<R: Abort + Threads + Wait + Sync>(
    rt: &R,
    alloc: Global,
    files: &mut MemFiles,
    rows: &[(&str, u8, &str)],
) -> Result<(), Fail> {
    let mut maker = CalendarMaker::new(alloc);
    for (line, status, text) in rows {
        let got = answer(rt, alloc, line, files, &mut maker, &OpenGate)?;
        assert_eq!(rt; got.0, *status, "{line}");
        assert_eq!(rt; got.1.as_slice(), text.as_bytes(), "{line}");
    }
    Ok(())
}

/// For each number of workers the text is that of the serial run.
#[test]
fn runs(rt: HostRuntime) -> Result<(), Fail> {
    let rows = [
        ("run pair 1 16 100", 0, PAIR_TEXT),
        ("run pair 2 16 100", 0, PAIR_TEXT),
        ("run pair 16 16 100", 0, PAIR_TEXT),
        ("serial pair 100", 0, PAIR_TEXT),
        ("run pair 1 4 3", 0, PAIR_TEXT),
        ("run quiet 1 4 1", 0, QUIET_TEXT),
        ("run quiet 16 4 1", 0, QUIET_TEXT),
        ("run meeting 2 16 100", 0, MEETING_TEXT),
        ("serial meeting 100", 0, MEETING_TEXT),
        ("run station 3 16 100", 0, STATION_TEXT),
        ("serial station 100", 0, STATION_TEXT),
        ("run hold 4 16 10", 0, HOLD_TEXT),
    ];
    compare(&rt, rt.alloc(), &mut models(rt.alloc())?, &rows)
}

/// The stops of a run: by events first, then by rows, at exactly these bounds.
#[test]
fn stops(rt: HostRuntime) -> Result<(), Fail> {
    let rows = [
        ("run pair 2 16 2", 7, "fault 7 3\n"),
        ("run fan 1 2048 1000", 7, "fault 7 10\n"),
        ("run fan 16 2048 1000", 7, "fault 7 10\n"),
        ("serial fan 1000", 7, "fault 7 10\n"),
        ("run twice 1 4 100", 8, "fault 8 0 2\n"),
        ("run twice 16 5 1", 8, "fault 8 0 2\n"),
        ("run twice 2 6 1", 7, "fault 7 1\n"),
        ("run fan 2 65 1000", 8, "fault 8 5 32\n"),
        ("run fan 2 66 1000", 8, "fault 8 6 64\n"),
        ("run fan 2 65 30", 7, "fault 7 5\n"),
        ("run fan 2 65 31", 8, "fault 8 5 32\n"),
    ];
    compare(&rt, rt.alloc(), &mut models(rt.alloc())?, &rows)
}

#[test]
fn other_commands(rt: HostRuntime) -> Result<(), Fail> {
    let rows = [
        ("check pair", 0, "model 2 1 5 12\n"),
        ("check made", 0, "model 2 1 16 2000\n"),
        ("gen 0 2 1", 0, MADE_TEXT),
        ("run not_json 1 16 100", 2, "fault 2 1 0\n"),
        ("run nowhere 1 16 100", 4, "fault 4\n"),
    ];
    compare(&rt, rt.alloc(), &mut models(rt.alloc())?, &rows)
}

#[test]
fn words_that_spell_no_command(rt: HostRuntime) -> Result<(), Fail> {
    let lines = [
        "run pair 0 16 100",
        "run pair 01 16 100",
        "run pair 17 16 100",
        "run pair 1 16",
        "run pair 1 3 100",
        "run pair 1 131073 100",
        "run pair 1 16 0",
        "run pair 1 16 4194305",
        "check",
        "",
        "--help",
        "check pair pair",
        "serial pair 007",
        "gen 18446744073709551616 1 0",
        "gen 0 0 0",
        "gen 0 1 65536",
    ];
    let mut files = models(rt.alloc())?;
    for line in lines {
        compare(&rt, rt.alloc(), &mut files, &[(line, 1, "fault 1\n")])?;
    }
    Ok(())
}

#[test]
fn faulty_models(rt: HostRuntime) -> Result<(), Fail> {
    let alloc = rt.alloc();
    let rows = [
        ("\"delay\":7", "\"delay\":4", "fault 2 7 2\n"),
        ("\"lookahead\":5", "\"lookahead\":0", "fault 2 7 0\n"),
        ("\"next\":\"b\"", "\"next\":\"c\"", "fault 2 6 1\n"),
        ("\"object\":\"a\"", "\"object\":\"c\"", "fault 2 6 3\n"),
        (
            "\"kind\":\"relay\",\"delay\":7",
            "\"kind\":\"clock\",\"delay\":7",
            "fault 2 6 2\n",
        ),
        ("}]}", "}]", "fault 2 1 0\n"),
        ("\"format\":1", "\"format\":2", "fault 2 5 0\n"),
    ];
    for (from, to, wanted) in rows {
        let text = changed_pair(alloc, from, to)?;
        let mut files = MemFiles::new(alloc, &[])?;
        files.add(alloc, "pair", text.as_bytes())?;
        compare(&rt, alloc, &mut files, &[("run pair 2 16 100", 2, wanted)])?;
    }
    Ok(())
}

#[test]
fn long_files(rt: HostRuntime) -> Result<(), Fail> {
    let alloc = rt.alloc();
    let most = vec![in alloc; b' '; 16_777_216]?;
    let more = vec![in alloc; b' '; 16_777_217]?;
    let mut files = MemFiles::new(alloc, &[])?;
    files.add(alloc, "most", most.as_slice())?;
    files.add(alloc, "more", more.as_slice())?;
    let rows = [
        ("run most 1 16 100", 2, "fault 2 1 0\n"),
        ("run more 1 16 100", 6, "fault 6\n"),
    ];
    compare(&rt, alloc, &mut files, &rows)
}

/// 4,000 windows of 25 events.
#[test]
fn many_windows(rt: HostRuntime) -> Result<(), Fail> {
    let alloc = rt.alloc();
    let mut files = MemFiles::new(alloc, &[])?;
    files.add(alloc, "relays", self_relays(alloc)?.as_bytes())?;
    let mut maker = CalendarMaker::new(alloc);
    let got = answer(
        &rt,
        alloc,
        "run relays 2 64 100000",
        &mut files,
        &mut maker,
        &OpenGate,
    )?;
    assert_eq!(rt; got.0, 0);
    assert!(rt; got.1.as_slice().ends_with(b"\nend 100000\n"));
    let serial = answer(
        &rt,
        alloc,
        "serial relays 100000",
        &mut files,
        &mut maker,
        &OpenGate,
    )?;
    assert!(rt; got.1 == serial.1);
    Ok(())
}
