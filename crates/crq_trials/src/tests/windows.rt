//! Edges of windows, and events by their objects.

ghost use Rattle.std.specs.Prelude.{◌≡◌};

use crq_base::Event;
use crq_windows::{Group, edge, group_by_object};
use std::test::Fail;

/// An event that carries nothing.
fn event(time: u32, src: u32, seq: u64, dst: u32) -> Event
    ensures { result ≡ record { time = time; src = src; seq = seq; dst = dst; load = 0 } }
{
    Event {
        time,
        src,
        seq,
        dst,
        load: 0,
    }
}

#[test]
fn edges_of_windows(rt: HostRuntime) {
    for (least, lookahead, wanted) in [(0, 5, 5), (7, 0, 7), (u32::MAX, u32::MAX, 8589934590)] {
        assert_eq!(rt; edge(least, lookahead), wanted, "{least} {lookahead}");
    }
}

#[test]
fn two_objects(rt: HostRuntime) -> Result<(), Fail> {
    let alloc = rt.alloc();
    let mut events = vec![in alloc; event(5, 1, 0, 2), event(9, 3, 0, 1), event(4, 2, 0, 2)]?;
    let groups = group_by_object(alloc, &mut events, 2)?;
    let wanted = [
        Group {
            object: 1,
            from: 0,
            upto: 1,
        },
        Group {
            object: 2,
            from: 1,
            upto: 3,
        },
    ];
    assert_eq!(rt; groups.as_slice(), wanted.as_slice());
    let sorted = [event(9, 3, 0, 1), event(4, 2, 0, 2), event(5, 1, 0, 2)];
    assert_eq!(rt; events.as_slice(), sorted.as_slice());
    Ok(())
}

#[test]
fn one_object(rt: HostRuntime) -> Result<(), Fail> {
    let alloc = rt.alloc();
    let mut events = vec![in alloc;
        event(5, 2, 0, 3),
        event(5, 1, 4, 3),
        event(5, 1, 2, 3),
        event(4, 9, 9, 3),
    ]?;
    let groups = group_by_object(alloc, &mut events, 3)?;
    let wanted = [Group {
        object: 3,
        from: 0,
        upto: 4,
    }];
    assert_eq!(rt; groups.as_slice(), wanted.as_slice());
    let sorted = [
        event(4, 9, 9, 3),
        event(5, 1, 2, 3),
        event(5, 1, 4, 3),
        event(5, 2, 0, 3),
    ];
    assert_eq!(rt; events.as_slice(), sorted.as_slice());
    Ok(())
}

#[test]
fn no_event(rt: HostRuntime) -> Result<(), Fail> {
    let alloc = rt.alloc();
    let mut events = Vec::new(alloc);
    let groups = group_by_object(alloc, &mut events, 2)?;
    assert!(rt; groups.is_empty());
    assert!(rt; events.is_empty());
    Ok(())
}
