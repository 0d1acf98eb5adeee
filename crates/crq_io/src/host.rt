//! The host's files and the streams that it prints to. They tell nothing of their bytes, and count their failures.

ghost use Rattle.std.specs.Prelude.{◌≡◌, ◌≢◌, ◌<◌, ◌≤◌, length, take, IfSome, IfOk, IfErr, IsErr, OnOk, OnErr, IsErrOf, None};
ghost use Rattle.crq_io.specs.Faults.{one_more};
ghost use Rattle.crq_io.specs.Host.{file_faults, sink_faults};
ghost use Rattle.crq_io.specs.Told.{IsPart};

use crate::faults::one_more;
use crate::files::{Fetch, Files};
use crate::sink::{Failed, Sink};
use std::alloc::Global;
use std::io::{ErrorKind, Read};
use std::{fs, io, rt};

/// The files of the host, by their paths.
#[derive(Drop)]
pub struct HostFiles<'a, R> {
    host: &'a R,
    faults: u64,
}

impl<'a, R: rt::Files> HostFiles<'a, R> {
    /// The files of this host, with no fault counted.
    pub fn new(host: &'a R) -> HostFiles<'a, R>
        ensures { file_faults result ≡ 0 }
    {
        HostFiles { host, faults: 0 }
    }

    /// How often a file couldn't be opened or read.
    pub fn faults(&self) -> u64
        ensures { result ≡ file_faults self.now }
    {
        self.faults
    }
}

/// The first bytes of what a reader gives, at most so many.
fn first_bytes<R: Read + Drop>(alloc: Global, reader: R, most: u64) -> io::Result<Vec<u8>>
    ensures { IfSome (R.remaining reader) (λ all. IfOk result (λ bytes. bytes.items ≡ take most all)) }
{
    let mut bytes = Vec::new(alloc);
    reader.take(most).read_to_end(&mut bytes)?;
    Ok(bytes)
}

/// The first bytes of a file of the host, or the kind of the error that its opening or reading ended with.
fn read_first<R: rt::Files>(
    host: &R,
    alloc: Global,
    name: &str,
    most: u64,
) -> Result<Vec<u8>, ErrorKind> {
    let file = match fs::open(host, name) {
        Ok(file) => file,
        Err(error) => return Err(error.kind()),
    };
    first_bytes(alloc, file, most).map_err(|error| error.kind())
}

/// What a fetch answers where the file was read with this end: its bytes, unless they are more than the limit.
fn fetched(read: Result<Vec<u8>, ErrorKind>, limit: u64) -> Result<Vec<u8>, Fetch>
    ensures bytes { IfOk read (λ bytes. length bytes.items ≤ limit → result ≡ Ok bytes) }
    ensures long { IfOk read (λ bytes. limit < length bytes.items → result ≡ Err Fetch.Long) }
    ensures memory { IfErr read (λ kind. kind ≡ ErrorKind.OutOfMemory → result ≡ Err Fetch.Memory) }
    ensures failed { IfErr read (λ kind. kind ≢ ErrorKind.OutOfMemory → result ≡ Err Fetch.Failed) }
{
    match read {
        Ok(bytes) if bytes.len() as u64 > limit => Err(Fetch::Long),
        Ok(bytes) => Ok(bytes),
        Err(ErrorKind::OutOfMemory) => Err(Fetch::Memory),
        Err(_) => Err(Fetch::Failed),
    }
}

impl<R: rt::Files> Files for HostFiles<'_, R> {
    ghost found = { λ _ _. None };

    ghost faults = { file_faults };

    /// Reads a file to its end, or one byte past the limit. A missing file is a fault like any other.
    fn fetch(&mut self, alloc: Global, name: &str, limit: u64) -> Result<Vec<u8>, Fetch>
        ensures ok { IfOk result (λ bytes. length bytes.items ≤ limit) }

        // Each failure is counted once, and nothing else is.
        ensures failed { IsErrOf result Fetch.Failed → file_faults self.new ≡ one_more (file_faults self.old) }
        ensures uncounted { (IsErrOf result Fetch.Failed → ⊥) → file_faults self.new ≡ file_faults self.old }
        ensures later { file_faults self.old ≤ file_faults self.new }

        // The host tells no names, so an absent one is a failure.
        ensures absent { IsErrOf result Fetch.NoFile → ⊥ }
    {
        let end = fetched(read_first(self.host, alloc, name, one_more(limit)), limit);
        if let Err(Fetch::Failed) = end {
            self.faults = one_more(self.faults);
        }
        end
    }
}

/// A stream of the host that prints: its standard output where `R` is the runtime, or its standard error.
#[derive(Drop)]
pub struct HostSink<'a, R> {
    host: &'a R,
    faults: u64,
}

impl<'a, R: Print> HostSink<'a, R> {
    /// This stream, with no fault counted.
    pub fn new(host: &'a R) -> HostSink<'a, R>
        ensures { sink_faults result ≡ 0 }
    {
        HostSink { host, faults: 0 }
    }

    /// How often a piece wasn't taken.
    pub fn faults(&self) -> u64
        ensures { result ≡ sink_faults self.now }
    {
        self.faults
    }
}

/// What a write answers where the stream took so many bytes of the piece, or failed. No byte taken of a piece that
/// isn't empty is a failure.
fn taken(wrote: io::Result<usize>, piece: &[u8]) -> Result<usize, Failed>
    ensures taken { IfOk wrote (λ n. IsPart n piece.now → result ≡ Ok n) }
    ensures refused { IfOk wrote (λ n. (IsPart n piece.now → ⊥) → IsErr result) }
    ensures failed { IfErr wrote (λ _. IsErr result) }
    ensures part { IfOk result (λ n. IsPart n piece.now) }
{
    match wrote {
        Ok(count) if count <= piece.len() && (count > 0 || piece.is_empty()) => Ok(count),
        _ => Err(Failed),
    }
}

impl<R: Print> Sink for HostSink<'_, R> {
    ghost written = { λ _. None };

    ghost faults = { sink_faults };

    /// One write to the stream.
    fn write(&mut self, piece: &[u8]) -> Result<usize, Failed>
        ensures ok { IfOk result (λ n. IsPart n piece.now) }

        // Each failure is counted once, and nothing else is.
        ensures failed { OnErr result (sink_faults self.new ≡ one_more (sink_faults self.old)) }
        ensures uncounted { OnOk result (sink_faults self.new ≡ sink_faults self.old) }
        ensures later { sink_faults self.old ≤ sink_faults self.new }
    {
        let end = taken(self.host.write_some(piece), piece);
        if end.is_err() {
            self.faults = one_more(self.faults);
        }
        end
    }
}
