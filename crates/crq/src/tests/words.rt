//! What is said on the stream of errors, and the exit status.

use crate::tests::models::{PAIR_TEXT, changed_pair, models};
use crate::tests::words_of;
use crq_host::OpenGate;
use crq_io::{MemFiles, MemSink};
use crq_queue::CalendarMaker;
use crq_top::{perform, program};
use std::alloc::Global;
use std::env::{Env, FillError};
use std::sync::Wait;
use std::test::Fail;
use std::thread::Threads;

/// The models, and two with a fault.
fn all_models(alloc: Global) -> Result<MemFiles, Fail> {
    let mut files = models(alloc)?;
    for (name, from, to) in [
        ("late", "\"delay\":7", "\"delay\":4"),
        ("lost", "\"object\":\"a\"", "\"object\":\"c\""),
    ] {
        files.add(alloc, name, changed_pair(alloc, from, to)?.as_bytes())?;
    }
    Ok(files)
}

#[test]
fn endings_in_words(rt: HostRuntime) -> Result<(), Fail> {
    let alloc = rt.alloc();
    let mut files = all_models(alloc)?;
    let mut maker = CalendarMaker::new(alloc);
    let rows = [
        (
            "",
            "there is no command; the commands are: run MODEL WORKERS ROWS EVENTS, check MODEL, serial MODEL EVENTS, gen SEED OBJECTS POPULATION",
        ),
        (
            "rnu pair 1 16 100",
            "no command \"rnu\"; the commands are: run MODEL WORKERS ROWS EVENTS, check MODEL, serial MODEL EVENTS, gen SEED OBJECTS POPULATION",
        ),
        ("run", "MODEL is missing; it has to be the name of a file"),
        ("run pair 17 3 0", "WORKERS is 17; it has to be 1 to 16"),
        ("run pair 1 3 0", "ROWS is 3; it has to be 4 to 131072"),
        (
            "run pair 1 16",
            "EVENTS is missing; it has to be 1 to 4194304",
        ),
        (
            "serial pair 007",
            "EVENTS is 007; it has to be 1 to 4194304",
        ),
        ("check pair twice", "\"twice\" is one word too many"),
        (
            "gen -1 1 0",
            "SEED is -1; it has to be 0 to 18446744073709551615",
        ),
        ("gen 0 0 0", "OBJECTS is 0; it has to be 1 to 65535"),
        (
            "gen 0 1 65536",
            "POPULATION is 65536; it has to be 0 to 65535",
        ),
        (
            "run late 1 16 100",
            "late: object 2: \"delay\" is below the lookahead",
        ),
        (
            "run lost 1 16 100",
            "lost: start 1: \"object\" names no object \"c\"",
        ),
        (
            "run not_json 1 16 100",
            "not_json: the text isn't JSON in UTF-8",
        ),
        (
            "run now\u{7}here 1 16 100",
            "now\\x07here: the file can't be read",
        ),
        (
            "run pair 2 16 2",
            "pair: the run has more events than EVENTS; the first one past them is in window 3",
        ),
        (
            "run fan 2 65 1000",
            "fan: ROWS is too low for the 32 events that are pending after window 5; it has to be at least 66",
        ),
    ];
    for (line, wanted) in rows {
        let words = words_of(alloc, line)?;
        let words = words.as_slice();
        let mut out = MemSink::new(alloc, 1000, 1000, &[])?;
        let mut errors = MemSink::new(alloc, 1000, 1000, &[])?;
        perform(
            &rt,
            alloc,
            words,
            &mut files,
            &mut out,
            &mut errors,
            &mut maker,
            &OpenGate,
        );
        let said = format!(in alloc; "crq: {wanted}\n")?;
        assert_eq!(rt; errors.bytes(), said.as_bytes(), "{line}");
    }
    Ok(())
}

/// A command line, of which the first word is the program's name.
#[derive(Drop)]
struct CommandLine<'a> {
    words: &'a [&'a [u8]],
}

impl Env for CommandLine<'_> {
    fn arg(&self, i: usize, buf: &mut [u8]) -> Result<usize, FillError> {
        let Some(word) = self.words.get(i) else {
            return Err(FillError::NotPresent);
        };
        if word.len() > buf.len() {
            return Err(FillError::TooLong);
        }
        buf[..word.len()].copy_from_slice(word);
        Ok(word.len())
    }

    fn var(&self, _name: &str, _buf: &mut [u8]) -> Result<usize, FillError> {
        Err(FillError::NotPresent)
    }

    fn var_at(&self, _i: usize, _buf: &mut [u8]) -> Result<usize, FillError> {
        Err(FillError::NotPresent)
    }
}

/// What the program wrote to its two streams, and its exit status as it is shown.
#[derive(Drop)]
struct Performance {
    text: String,
    said: String,
    code: String,
}

/// The program on these words.
fn performed<R: Threads + Wait + Sync>(
    rt: &R,
    alloc: Global,
    words: &[&[u8]],
) -> Result<Performance, Fail> {
    let mut files = models(alloc)?;
    let mut out = MemSink::new(alloc, 1 << 12, 1 << 12, &[])?;
    let mut errors = MemSink::new(alloc, 1 << 12, 7, &[])?;
    let mut maker = CalendarMaker::new(alloc);
    let line = CommandLine { words };
    let code = program(
        rt,
        &line,
        alloc,
        &mut files,
        &mut out,
        &mut errors,
        &mut maker,
        &OpenGate,
    );
    Ok(Performance {
        text: String::from_utf8_lossy(alloc, out.bytes())?,
        said: String::from_utf8_lossy(alloc, errors.bytes())?,
        code: format!(in alloc; "{code:?}")?,
    })
}

#[test]
fn the_whole_program(rt: HostRuntime) -> Result<(), Fail> {
    let alloc = rt.alloc();
    let rows: [(&[&[u8]], &str, &str, &str); 7] = [
        (
            &[b"crq", b"run", b"pair", b"2", b"16", b"100"],
            PAIR_TEXT,
            "",
            "0",
        ),
        (&[b"crq", b"check", b"pair"], "model 2 1 5 12\n", "", "0"),
        (
            &[b"crq", b"run", b"pair", b"1", b"16", b"100", b"more"],
            "fault 1\n",
            "crq: \"more\" is one word too many\n",
            "1",
        ),
        (
            &[b"crq", b"check", b"\xff"],
            "",
            "crq: a word of the command line isn't UTF-8\n",
            "1",
        ),
        (
            &[b"crq", b"check", b"nowhere"],
            "fault 4\n",
            "crq: nowhere: the file can't be read\n",
            "4",
        ),
        (
            &[b"crq", b"serial", b"pair", b"2"],
            "fault 7 3\n",
            "crq: pair: the run has more events than EVENTS; the first one past them is in window 3\n",
            "7",
        ),
        (
            &[b"crq", b"run", b"twice", b"2", b"4", b"100"],
            "fault 8 0 2\n",
            "crq: twice: ROWS is too low for the 2 events that are pending after window 0; it has to be at least 6\n",
            "8",
        ),
    ];
    for (words, text, said, status) in rows {
        let got = performed(&rt, alloc, words)?;
        let code = format!(in alloc; "ExitCode(unix_exit_status({status}))")?;
        assert_eq!(rt; got.text.as_str(), text, "{status}");
        assert_eq!(rt; got.said.as_str(), said, "{status}");
        assert_eq!(rt; got.code.as_str(), code.as_str(), "{status}");
    }
    Ok(())
}
