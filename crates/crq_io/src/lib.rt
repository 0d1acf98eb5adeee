//! Bytes in and bytes out: files that are fetched whole, and a sink that takes bytes piece by piece, each over memory and over the host.
//! Each device counts its faults. A caller who is told of a failure can so be sure that the device failed in just that call.
#![tactic(auto)]

mod faults;
mod files;
mod host;
mod mem_files;
mod mem_sink;
mod sink;

pub use crq_base::Memory;
pub use files::{Fetch, Files};
pub use host::{HostFiles, HostSink};
pub use mem_files::MemFiles;
pub use mem_sink::MemSink;
pub use sink::{Cut, Failed, Sink, write_whole};
