//! The program `crq`: runs a simulation model and prints what its objects did.
#![tactic(auto)]

use crq_host::OpenGate;
use crq_queue::CalendarMaker;
use crq_top::on_host;
use std::process::ExitCode;

#[cfg(test)]
mod tests;

fn main(rt: HostRuntime) -> ExitCode {
    let alloc = rt.alloc();
    let mut maker = CalendarMaker::new(alloc);
    on_host(&rt, alloc, &rt.stderr(), &mut maker, &OpenGate)
}
