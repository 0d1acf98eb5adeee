//! Packed words, and histories with and without a fault.

use crq_base::{Control, Current, Entry, Event, Fault, Link, Mark, Pin, Stamp, judge};

#[test]
fn packs_and_unpacks_links(rt: HostRuntime) {
    for (mark, word) in [
        (Mark::Val, 0x0400_0014),
        (Mark::Inv, 0x0400_0015),
        (Mark::Mov, 0x0400_0016),
        (Mark::Del, 0x0400_0017),
    ] {
        let link = Link {
            generation: 1,
            row: 5,
            mark,
        };
        assert_eq!(rt; link.pack(), word);
        assert_eq!(rt; Link::unpack(word), Some(link));
    }
}

#[test]
fn packs_and_unpacks_currents_and_pins(rt: HostRuntime) {
    let current = Current { epoch: 1, tick: 8 };
    assert_eq!(rt; current.pack(), 0x0000_0001_0000_0008);
    assert_eq!(rt; Current::unpack(0x0000_0001_0000_0008), Some(current));
    let pin = Pin {
        generation: 2,
        epoch: 7,
    };
    assert_eq!(rt; pin.pack(), 0x0000_0002_0000_0007);
    assert_eq!(rt; Pin::unpack(0x0000_0002_0000_0007), Some(pin));
}

#[test]
fn packs_and_unpacks_controls(rt: HostRuntime) {
    let steady = Control {
        generation: 1,
        moving: false,
        log: 3,
        shift: 0,
        new_log: 0,
        new_shift: 0,
    };
    let moving = Control {
        generation: 1,
        moving: true,
        log: 3,
        shift: 0,
        new_log: 4,
        new_shift: 2,
    };
    for (control, word) in [(steady, 0x8_c000), (moving, 0xc_c082)] {
        assert_eq!(rt; control.pack(), word);
        assert_eq!(rt; Control::unpack(word), Some(control));
    }
}

#[test]
fn packs_and_unpacks_stamps(rt: HostRuntime) {
    for (stamp, word) in [
        (Stamp::Kept, 0),
        (Stamp::Retired(0), 1),
        (Stamp::Retired(1 << 62), (1 << 62) + 1),
    ] {
        assert_eq!(rt; stamp.pack(), word);
        assert_eq!(rt; Stamp::unpack(word), Some(stamp));
    }
}

#[test]
fn refuses_what_is_no_word(rt: HostRuntime) {
    assert_eq!(rt; Link::unpack(1 << 56), None);
    assert_eq!(rt; Pin::unpack(1 << 62), None);
    assert_eq!(rt; Stamp::unpack((1 << 62) + 2), None);
    for word in [1 << 49, 0x8_c001, 0x8_c020] {
        assert_eq!(rt; Control::unpack(word), None);
    }
}

const FIRST: Event = Event {
    time: 3,
    src: 1,
    seq: 0,
    dst: 2,
    load: 7,
};

const LATER: Event = Event {
    time: 5,
    src: 1,
    seq: 1,
    dst: 2,
    load: 7,
};

const TIED: Event = Event {
    time: 3,
    src: 1,
    seq: 0,
    dst: 1,
    load: 9,
};

#[test]
fn names_the_first_fault(rt: HostRuntime) {
    let whole = [
        Entry::Begin(0),
        Entry::Put(0, LATER),
        Entry::Settled(0, LATER),
        Entry::Table(1, 4, 2),
        Entry::Begin(1),
        Entry::Put(0, FIRST),
        Entry::Settled(0, FIRST),
        Entry::Miss(1, 5),
        Entry::Begin(1),
        Entry::Take(1, FIRST),
        Entry::Begin(1),
        Entry::Take(1, LATER),
    ];
    assert_eq!(rt; judge(&[]), Ok(()));
    assert_eq!(rt; judge(&whole), Ok(()));
    for (entry, fault) in [
        (Entry::Put(1, FIRST), Fault::PutTwice),
        (Entry::Settled(1, LATER), Fault::NotPut),
        (Entry::Settled(0, LATER), Fault::SettledTwice),
        (Entry::Take(1, TIED), Fault::NotPut),
        (Entry::Take(1, FIRST), Fault::TakenTwice),
        (Entry::Miss(0, 0), Fault::NoBegin),
    ] {
        let mut history = [Entry::Begin(2); 13];
        history[..12].copy_from_slice(&whole);
        history[12] = entry;
        assert_eq!(rt; judge(&history), Err((12, fault)));
    }
}

#[test]
fn names_the_least_event_passed(rt: HostRuntime) {
    let held = [
        Entry::Put(0, LATER),
        Entry::Settled(0, LATER),
        Entry::Put(0, FIRST),
        Entry::Settled(0, FIRST),
        Entry::Put(1, TIED),
        Entry::Settled(1, TIED),
        Entry::Begin(1),
    ];
    for (entry, want) in [
        (Entry::Take(1, LATER), Err((7, Fault::Passed(TIED)))),
        (Entry::Take(1, FIRST), Ok(())),
        (Entry::Take(0, FIRST), Err((7, Fault::NoBegin))),
        (Entry::Miss(1, 3), Ok(())),
        (Entry::Miss(1, 4), Err((7, Fault::Passed(TIED)))),
    ] {
        let mut history = [entry; 8];
        history[..7].copy_from_slice(&held);
        assert_eq!(rt; judge(&history), want);
    }
}
