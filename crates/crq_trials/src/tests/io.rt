//! Files and sinks, over memory and over the host.

use crq_io::{
    Cut, Failed, Fetch, Files, HostFiles, HostSink, MemFiles, MemSink, Sink, write_whole,
};
use std::alloc::Global;
use std::fmt::Display;
use std::fs;
use std::io::{self, ErrorKind};
use std::test::Fail;

const DIGITS: &[u8] = b"0123456789";

/// Fetches a file, and answers its length.
fn length_of<F: Files>(
    files: &mut F,
    alloc: Global,
    name: &str,
    limit: u64,
) -> Result<usize, Fetch> {
    match files.fetch(alloc, name, limit) {
        Ok(bytes) => Ok(bytes.len()),
        Err(end) => Err(end),
    }
}

#[test]
fn fetches_from_memory(rt: HostRuntime) -> Result<(), Fail> {
    let alloc = rt.alloc();
    let mut files = MemFiles::new(alloc, &[2, 9])?;
    files.add(alloc, "digits", b"old")?;
    files.add(alloc, "other", b"")?;
    files.add(alloc, "digits", DIGITS)?;
    let calls = [
        ("digits", 10, Ok(10)),
        ("digits", 10, Err(Fetch::Failed)),
        ("digits", 9, Err(Fetch::Long)),
        ("digit", 9, Err(Fetch::NoFile)),
        ("other", 0, Ok(0)),
    ];
    for (name, limit, wanted) in calls {
        assert_eq!(rt;
            length_of(&mut files, alloc, name, limit),
            wanted,
            "{name} within {limit}"
        );
    }
    assert_eq!(rt; files.faults(), 1);
    assert_eq!(rt; files.fetch(alloc, "digits", u64::MAX)?.as_slice(), DIGITS);
    Ok(())
}

#[test]
fn writes_to_memory(rt: HostRuntime) -> Result<(), Fail> {
    let alloc = rt.alloc();
    let text = b"The first of forty-two bytes and the last.";
    let rows = [
        (64, 10, [3, 5], Err(Cut { sent: 20 }), 20, 1),
        (64, 10, [7, 8], Ok(()), 42, 0),
        (42, 64, [0, 3], Ok(()), 42, 0),
        (41, 64, [0, 4], Err(Cut { sent: 41 }), 41, 1),
        (64, 1, [1, 3], Err(Cut { sent: 0 }), 0, 1),
    ];
    for (room, most, fails, wanted, held, faults) in rows {
        let mut sink = MemSink::new(alloc, room, most, &fails)?;
        assert_eq!(rt; write_whole(&mut sink, text), wanted, "{room} {most}");
        assert!(rt; text.starts_with(sink.bytes()), "{room} {most}");
        assert_eq!(rt; sink.bytes().len(), held);
        assert_eq!(rt; sink.faults(), faults);
        assert_eq!(rt; sink.write(b""), Ok(0));
    }
    Ok(())
}

#[test]
fn reads_and_writes_on_the_host(rt: HostRuntime) -> Result<(), Fail> {
    let alloc = rt.alloc();
    fs::write(&rt, "ten_bytes", DIGITS)?;
    let mut files = HostFiles::new(&rt);
    assert_eq!(rt; files.fetch(alloc, "ten_bytes", 10)?.as_slice(), DIGITS);
    assert_eq!(rt;
        length_of(&mut files, alloc, "ten_bytes", 9),
        Err(Fetch::Long)
    );
    assert_eq!(rt; length_of(&mut files, alloc, "ten_bytes", u64::MAX), Ok(10));
    assert_eq!(rt; files.faults(), 0);
    assert_eq!(rt;
        length_of(&mut files, alloc, "no_bytes", 10),
        Err(Fetch::Failed)
    );
    assert_eq!(rt;
        length_of(&mut files, alloc, ".", 10),
        Err(Fetch::Failed),
        "opened, not read"
    );
    assert_eq!(rt; files.faults(), 2);
    fs::remove_file(&rt, "ten_bytes")?;

    let mut sink = HostSink::new(&rt);
    assert_eq!(rt;
        write_whole(&mut sink, b"written to standard output\n"),
        Ok(())
    );
    assert_eq!(rt; sink.faults(), 0);
    Ok(())
}

/// A stream that takes at most so many bytes of a piece, or fails where it would take none.
#[derive(Drop)]
struct Narrow {
    most: usize,
}

impl Print for Narrow {
    fn print<D: Display + Drop>(&self, _value: D) -> io::Result<()> {
        Err(io::Error::from(ErrorKind::Unsupported))
    }

    fn println<D: Display + Drop>(&self, _value: D) -> io::Result<()> {
        Err(io::Error::from(ErrorKind::Unsupported))
    }

    fn write_all(&self, _bytes: &[u8]) -> io::Result<()> {
        Err(io::Error::from(ErrorKind::Unsupported))
    }

    fn write_some(&self, bytes: &[u8]) -> io::Result<usize> {
        if self.most == 0 {
            return Err(io::Error::from(ErrorKind::StorageFull));
        }
        Ok(self.most.min(bytes.len()))
    }
}

#[test]
fn short_and_failing_writes_to_the_host(rt: HostRuntime) -> Result<(), Fail> {
    let rows = [
        (10, "0123456789", Ok(10), 0),
        (3, "0123456789", Ok(3), 0),
        (1, "", Ok(0), 0),
        (0, "0123456789", Err(Failed), 1),
    ];
    for (most, piece, wanted, faults) in rows {
        let stream = Narrow { most };
        let mut sink = HostSink::new(&stream);
        assert_eq!(rt; sink.write(piece.as_bytes()), wanted, "{most} of {piece}");
        assert_eq!(rt; sink.faults(), faults, "{most} of {piece}");
    }
    Ok(())
}
