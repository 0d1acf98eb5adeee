//! The program `crq_hold`: the hold model over the lock-free calendar queue.
//!
//! Several threads share one queue of events. Each of them makes holds: it takes the least event and puts it back with a
//! later time and the same load. Which thread gets which event depends on the schedule, but the loads that are pending in
//! the end do not, nor does the number of holds.
#![tactic(auto)]

mod hold;
mod team;
#[cfg(test)]
mod tests;
mod words;
mod worker;

use crq_base::MOST_WORKERS;
use std::process::ExitCode;
use std::{env, io};

/// The words of the command line after the program's name.
fn asked(rt: &HostRuntime) -> io::Result<Vec<String>> {
    let mut args = env::args(rt)?;
    let _program = args.next();
    let mut words = Vec::new(rt.alloc());
    for word in args {
        words.push(word)?;
    }
    Ok(words)
}

/// What is done, in two lines.
fn tell(rt: &HostRuntime, held: &hold::Held) -> io::Result<()> {
    let (holds, sum) = (held.holds, held.sum);
    println!(rt; "holds {holds}\nsum {sum}")
}

fn main(rt: HostRuntime) -> ExitCode {
    let Ok(words) = asked(&rt) else {
        return ExitCode::from(1);
    };
    let Some(job) = words::job_of(words.as_slice()) else {
        let _ = eprintln!(rt;
            "usage: crq_hold THREADS PENDING HOLDS SEED STEP, with 1 to {MOST_WORKERS} threads, 1 to 256 events and 1 to 1024 ticks"
        );
        return ExitCode::from(2);
    };
    let Ok(held) = hold::run(&rt, rt.alloc(), &job) else {
        return ExitCode::from(1);
    };
    match tell(&rt, &held) {
        Ok(()) => ExitCode::from(0),
        Err(_) => ExitCode::from(1),
    }
}
