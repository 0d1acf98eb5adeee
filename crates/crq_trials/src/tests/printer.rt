//! Worked texts, and texts with a wrong line.

ghost use Rattle.std.specs.Prelude.{◌≡◌, true};
ghost use Rattle.crq_sim.specs.Names.{is_name};

use crq_base::Event;
use crq_printer::{TraceFault, read_traces, summary_text, trace_text};
use crq_sim::{BehaviourName, Name, ObjectTrace, Outcome, Sequence, Size, Step, Traces};
use std::alloc::{AllocError, Global};

const LINES: [&str; 7] = [
    "trace 1\n",
    "object 1 a relay 2\n",
    "0 0 0 0 1 0\n",
    "12 2 0 2 2 2\n",
    "object 2 b relay 1\n",
    "5 1 0 1 1 1\n",
    "end 3\n",
];

/// A step with number 0 of its source.
fn step(time: u32, src: u32, dst: u32, load: u64, count: u64) -> Step {
    let event = Event {
        time,
        src,
        seq: 0,
        dst,
        load,
    };
    Step {
        event,
        count,
        word: load,
    }
}

fn relay(alloc: Global, name: &str, steps: &[Step]) -> Result<ObjectTrace, AllocError>
    requires { is_name name.now ≡ true }
{
    Ok(ObjectTrace {
        name: Name::from_text(alloc, name)?,
        behaviour: BehaviourName::Relay,
        steps: Sequence::from_vec(Vec::from_slice(alloc, steps)?),
    })
}

/// The traces of two relays.
fn two_relays(alloc: Global) -> Result<Traces, AllocError> {
    let first = relay(
        alloc,
        "a",
        [step(0, 0, 1, 0, 1), step(12, 2, 1, 2, 2)].as_slice(),
    )?;
    let second = relay(alloc, "b", [step(5, 1, 2, 1, 1)].as_slice())?;
    Ok(Sequence::from_vec(vec![in alloc; first, second]?))
}

/// The text of the traces, with this line in place of the line with this number.
fn text_with(alloc: Global, number: usize, other: &str) -> Result<String, AllocError> {
    let mut text = String::new(alloc);
    for (at, line) in LINES.iter().enumerate() {
        text.push_str(if at + 1 == number { other } else { line })?;
    }
    Ok(text)
}

#[test]
fn traces_are_printed_and_read_back(rt: HostRuntime) -> Result<(), AllocError> {
    let alloc = rt.alloc();
    let text = text_with(alloc, 0, "")?;
    let Ok(printed) = trace_text(&rt, alloc, &two_relays(alloc)?) else {
        return Err(AllocError);
    };
    assert_eq!(rt; printed.as_slice(), text.as_bytes());
    let Ok(read) = read_traces(alloc, text.as_bytes()) else {
        return Err(AllocError);
    };
    let wanted = two_relays(alloc)?;
    assert_eq!(rt; read.len(), wanted.len());
    for (found, wanted) in read.as_slice().iter().zip(wanted.as_slice()) {
        assert_eq!(rt; found.name.as_str(), wanted.name.as_str());
        assert_eq!(rt; found.behaviour, wanted.behaviour);
        assert_eq!(rt; found.steps.as_slice(), wanted.steps.as_slice());
    }
    Ok(())
}

#[test]
fn the_first_wrong_line_is_named(rt: HostRuntime) -> Result<(), AllocError> {
    let alloc = rt.alloc();
    for (number, line, wanted) in [
        (7, "end 2\n", 7),
        (3, "00 0 0 0 1 0\n", 3),
        (7, "end 3", 7),
        (7, "end 3\n\n", 8),
        (1, "trace 2\n", 1),
        (2, "object 1 a relay 3\n", 5),
        (2, "object 1 a relay 1\n", 4),
        (2, "object 1 a relay 18446744073709551615\n", 5),
        (5, "object 2 b relay 18446744073709551615\n", 7),
        (5, "object 2 b relay 18446744073709551616\n", 5),
        (3, "4294967296 0 0 0 1 0\n", 3),
        (4, "12 65536 0 2 2 2\n", 4),
        (4, "12 2 0 2 2 18446744073709551616\n", 4),
        (5, "object 1 b relay 1\n", 5),
        (5, "object 2 b/ relay 1\n", 5),
        (5, "object 2 b queue 1\n", 5),
        (6, "5 1 0 1 1\n", 6),
    ] {
        let text = text_with(alloc, number, line)?;
        let found = read_traces(alloc, text.as_bytes());
        assert!(rt;
            matches!(&found, Err(fault) if *fault == TraceFault::Line(wanted)),
            "at {line}"
        );
    }
    assert!(rt; matches!(&read_traces(alloc, b""), Err(TraceFault::Line(1))));
    Ok(())
}

#[test]
fn a_run_is_summed_up(rt: HostRuntime) -> Result<(), AllocError> {
    let alloc = rt.alloc();
    let tables = vec![in alloc; Size { shift: 0, log: 2 }, Size { shift: 0, log: 1 }]?;
    let outcome = Outcome {
        traces: two_relays(alloc)?,
        windows: 3,
        peak: 1,
        tables: Sequence::from_vec(tables),
    };
    let Ok(text) = summary_text(alloc, &outcome) else {
        return Err(AllocError);
    };
    let wanted = "objects 2\nevents 3\nwindows 3\ntables 2\npeak 1\nlast 12\nsum 58\n";
    assert_eq!(rt; text.as_slice(), wanted.as_bytes());
    Ok(())
}
