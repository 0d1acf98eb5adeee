//! The calls of the program: over calendars, over plain sets, and over devices that fail.

mod commands;
mod drives;
mod faults;
mod gates;
mod histories;
mod models;
mod words;

use crate::tests::models::models;
use crq_host::Gate;
use crq_io::{MemFiles, MemSink};
use crq_set::SetMaker;
use crq_top::{inspect, run};
use std::alloc::{AllocError, Global};
use std::sync::Wait;
use std::test::Fail;
use std::thread::Threads;

/// The words of a line, which one space parts.
fn words_of(alloc: Global, line: &str) -> Result<Vec<String>, AllocError> {
    let mut words = Vec::new(alloc);
    for word in line.split(' ') {
        if !word.is_empty() {
            words.push(String::from_str(alloc, word)?)?;
        }
    }
    Ok(words)
}

/// The status of a call, and the text that it wrote.
fn answer<M: SetMaker, G: Gate, R: Threads + Wait + Sync>(
    rt: &R,
    alloc: Global,
    line: &str,
    files: &mut MemFiles,
    maker: &mut M,
    gate: &G,
) -> Result<(u8, Vec<u8>), Fail> {
    let words = words_of(alloc, line)?;
    let words = words.as_slice();
    let mut out = MemSink::new(alloc, 1 << 23, 1 << 23, &[])?;
    let status = if line.starts_with("run") {
        run(rt, alloc, words, files, &mut out, maker, gate)
    } else {
        inspect(rt, alloc, words, files, &mut out)
    };
    let text = Vec::from_slice(alloc, out.bytes())?;
    Ok((status.code(), text))
}
