//! Draws, reactions, and runs of models of one object. Larger models run in the tests of `crq`.

ghost use Rattle.std.specs.Prelude.{◌≡◌, ◌<◌, ◌≤◌, ◌^◌, true, IfOk, vec_len, length, codes, [], ◌∷◌};
ghost use Rattle.std.specs.List.{AllByRecursion};
ghost use Rattle.crq_sim.specs.Models.{IsBehaviour, IsObject};
ghost use Rattle.crq_sim.specs.Names.{is_name};
ghost use Rattle.crq_sim.specs.declared.model.Start.{Start};

use crq_base::{Event, Memory};
use crq_sim::{
    Behaviour, MOST_STARTS, Model, Name, Object, ObjectState, ObjectTrace, Objects, Sends,
    Sequence, SimEnd, Start, Targets, draw, react, serial,
};
use std::alloc::Global;
use std::test::Fail;

#[test]
fn draws(rt: HostRuntime) {
    let mut state = 0;
    for wanted in [
        16294208416658607535,
        7960286522194355700,
        487617019471545679,
        17909611376780542444,
    ] {
        let (drawn, after) = draw(state);
        assert_eq!(rt; drawn, wanted);
        state = after;
    }
}

/// An object with a name.
fn object(alloc: Global, name: &str, behaviour: Behaviour) -> Result<Object, Memory>
    requires { is_name name.now ≡ true }
    ensures { IfOk result (λ o. o ≡ record { name = name.now; behaviour = behaviour }) }
{
    Ok(Object {
        name: Name::from_text(alloc, name)?,
        behaviour,
    })
}

/// One object, `p`.
fn one_object(alloc: Global, behaviour: Behaviour) -> Result<Objects, Memory>
    ensures { IfOk result (λ os. os ≡ record { name = codes "p"; behaviour = behaviour } ∷ []) }
{
    let mut objects = Sequence::from_vec(Vec::new(alloc));
    let first = object(alloc, "p", behaviour)?;
    objects.push(first)?;
    Ok(objects)
}

/// A model of one object.
fn one(
    alloc: Global,
    lookahead: u32,
    until: u32,
    behaviour: Behaviour,
    starts: Vec<Start>,
) -> Result<Model, Memory>
    requires ahead { 0 < lookahead }
    requires behaviour { IsBehaviour lookahead 1 behaviour }
    requires few { vec_len starts ≤ MOST_STARTS }
    requires started { AllByRecursion (λ (s : Start). IsObject 1 s.object) starts.items }
    ensures objects { IfOk result (λ m. m.objects ≡ record { name = codes "p"; behaviour = behaviour } ∷ []) }
    ensures until { IfOk result (λ m. m.until ≡ until) }
{
    let objects = one_object(alloc, behaviour)?;
    let model = Model::new(lookahead, until, objects, Sequence::from_vec(starts));
    Ok(model)
}

/// What the object of a model does at an event of tick 1 with load 20, as its word and its sends.
fn reaction(alloc: Global, behaviour: Behaviour, word: u64) -> Result<(u64, Sends), Memory>
    requires behaviour { IsBehaviour 4 1 behaviour }
    requires word { word ≤ 2 ^ 32 }
{
    let model = one(alloc, 4, 100, behaviour, Vec::new(alloc))?;
    let mut state = ObjectState {
        count: 0,
        word,
        sent: 0,
    };
    let event = Event {
        time: 1,
        src: 0,
        seq: 0,
        dst: 1,
        load: 20,
    };
    let sends = react(&model, 1, &mut state, &event);
    Ok((state.word, sends))
}

/// Whether these are the times and loads of what was sent.
fn are_sent(sends: &Sends, wanted: &[(u32, u64)]) -> bool {
    let sends = sends.as_slice();
    sends.len() == wanted.len()
        && sends
            .iter()
            .zip(wanted)
            .all(|(send, wanted)| (send.time, send.load) == *wanted)
}

#[test]
fn reacts(rt: HostRuntime) -> Result<(), Fail> {
    let alloc = rt.alloc();
    let (word, sent) = reaction(alloc, Behaviour::Relay { delay: 5, next: 1 }, 7)?;
    assert_eq!(rt; word, 20);
    assert!(rt; are_sent(&sent, &[(6, 21)]));
    let (word, sent) = reaction(
        alloc,
        Behaviour::Phold {
            seed: 0,
            spread: 240,
        },
        0,
    )?;
    assert_eq!(rt; word, 4354685564936845354);
    assert!(rt; are_sent(&sent, &[(38, 20)]));
    let (word, sent) = reaction(
        alloc,
        Behaviour::Station {
            service: 4,
            next: 1,
        },
        7,
    )?;
    assert_eq!(rt; word, 11);
    assert!(rt; are_sent(&sent, &[(11, 20)]));
    let targets = Targets::from_vec(vec![in alloc; 1, 1]?);
    let (word, sent) = reaction(alloc, Behaviour::Fan { delay: 5, targets }, 7)?;
    assert_eq!(rt; word, 20);
    assert!(rt; are_sent(&sent, &[(6, 20), (6, 20)]));
    let (word, sent) = reaction(alloc, Behaviour::Sink, 7)?;
    assert_eq!(rt; word, 27);
    assert!(rt; sent.is_empty());
    Ok(())
}

/// Time, source, number, load, and then the object's count and word after the step.
type Row = (u32, u32, u64, u64, u64, u64);

/// Whether the steps of a trace are these.
fn has_rows(trace: &ObjectTrace, rows: &[Row]) -> bool {
    let steps = trace.steps.as_slice();
    steps.len() == rows.len()
        && steps.iter().zip(rows).all(|(step, row)| {
            let event = step.event;
            (
                event.time, event.src, event.seq, event.load, step.count, step.word,
            ) == *row
        })
}

/// A start of the one object at tick 0.
fn start(load: u64) -> Start
    ensures { result ≡ record { time = 0; object = 1; load = load } }
{
    Start {
        time: 0,
        object: 1,
        load,
    }
}

/// Whether the serial run of a model of one object leaves these steps.
fn leaves(alloc: Global, model: &Model, wanted: &[Row]) -> bool {
    match serial(alloc, model, 100) {
        Ok(traces) => matches!(traces.as_slice(), [trace] if has_rows(trace, wanted)),
        Err(_) => false,
    }
}

#[test]
fn drawn_delays_run(rt: HostRuntime) -> Result<(), Fail> {
    let alloc = rt.alloc();
    let behaviour = Behaviour::Phold {
        seed: 0,
        spread: 240,
    };
    let starts = vec![in alloc; start(7)]?;
    let model = one(alloc, 16, 100, behaviour, starts)?;
    let wanted = [
        (0, 0, 0, 7, 1, 4354685564936845354),
        (49, 1, 0, 7, 2, 8709371129873690708),
    ];
    assert!(rt; leaves(alloc, &model, &wanted));
    Ok(())
}

#[test]
fn fans_pass_the_cap(rt: HostRuntime) -> Result<(), Fail> {
    let alloc = rt.alloc();
    let targets = Targets::from_vec(vec![in alloc; 1, 1]?);
    let starts = vec![in alloc; start(0)]?;
    let model = one(alloc, 5, 1000, Behaviour::Fan { delay: 5, targets }, starts)?;
    assert_eq!(rt; serial(alloc, &model, 1000).err(), Some(SimEnd::Events(10)));
    Ok(())
}
