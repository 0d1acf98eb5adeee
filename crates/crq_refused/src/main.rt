//! The program once more over plain sets, for a stored run that it refuses: six words are one too many, so it prints `fault 1` and
//! nothing else to standard output and ends with status 1.
#![tactic(auto)]

use crq_host::OpenGate;
use crq_set::PlainMaker;
use crq_top::on_host;
use std::process::ExitCode;

fn main(rt: HostRuntime) -> ExitCode {
    let alloc = rt.alloc();
    let mut maker = PlainMaker::new(alloc);
    on_host(&rt, alloc, &rt.stderr(), &mut maker, &OpenGate)
}
