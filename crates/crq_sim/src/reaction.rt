//! What an object does at an event.

ghost use Rattle.std.specs.Prelude.{◌≡◌, ◌+◌, ◌<◌, ◌≤◌, ◌^◌, length};
ghost use Rattle.crq_sim.specs.Draws.{next_state};
ghost use Rattle.crq_sim.specs.Models.{ModelData, IsObject};
ghost use Rattle.crq_sim.specs.Reactions.{behaviour_at, object_at, first_word, first_state, served, drawn_object, drawn_delay, action_of, scheduled, reaction_of, IsWordOf};
ghost use Rattle.crq_sim.specs.declared.reaction.ObjectState.{ObjectState};

use crate::draws::draw;
use crate::model::{Behaviour, MOST_OBJECTS, Model, Object};
use crate::sends::{Post, Sends, Source};
use crq_base::Event;

/// The tick at which a station that is always busy stops counting.
const LATEST: u64 = 1 << 32;

/// What an object keeps between its events.
#[derive(Clone, Copy, Debug, PartialEq, Eq)]
pub struct ObjectState {
    /// How many events it had.
    pub count: u64,
    /// What its behaviour keeps: a load, a generator's state, a time, or a sum.
    pub word: u64,
    /// How many events it scheduled.
    pub sent: u64,
}

impl ObjectState {
    /// The state of an object before its first event.
    pub fn first(model: &Model, object: u32) -> ObjectState
        requires { IsObject (length model.now.objects) object }
        ensures { result ≡ first_state (behaviour_at model.now object) }
    {
        ObjectState::before(&model.objects()[object as usize - 1])
    }

    /// The state of an object of some model before its first event.
    pub(crate) fn before(object: &Object) -> ObjectState
        ensures { result ≡ first_state object.now.behaviour }
    {
        let word = match &object.behaviour {
            Behaviour::Phold { seed, .. } => *seed,
            _ => 0,
        };
        ObjectState {
            count: 0,
            word,
            sent: 0,
        }
    }
}

/// When a station has served an event that comes at `time` while it is busy until `word`.
fn served(service: u32, word: u64, time: u32) -> u64
    requires { word ≤ 2 ^ 32 }
    ensures { result ≡ served service word time }
{
    let begun = u64::from(time).max(word);
    (begun + u64::from(service)).min(LATEST)
}

/// What a PHOLD object sends an event on as, and its generator's state after both draws.
fn hold(model: &Model, spread: u32, word: u64, event: &Event) -> (u64, Post)
    requires some { 0 < length model.now.objects }
    requires few { length model.now.objects ≤ MOST_OBJECTS }
    ensures { result ≡ (next_state (next_state word), record { time = event.now.time + model.now.lookahead + drawn_delay spread word; dst = drawn_object (length model.now.objects) word; load = event.now.load }) }
{
    let (first, after_first) = draw(word);
    let (second, after_second) = draw(after_first);
    let objects = model.objects().len() as u64;
    let delay = second % (u64::from(spread) + 1);
    let post = Post {
        time: u64::from(event.time) + u64::from(model.lookahead()) + delay,
        dst: (1 + first % objects) as u32,
        load: event.load,
    };
    (after_second, post)
}

/// The word of an object after an event, and what the object sends.
fn act(
    model: &Model,
    behaviour: &Behaviour,
    source: &Source,
    state: &ObjectState,
    event: &Event,
) -> (u64, Sends)
    requires some { 0 < length model.now.objects }
    requires few { length model.now.objects ≤ MOST_OBJECTS }
    requires sent { source.now.sent < 2 ^ 62 }
    requires word { IsWordOf behaviour.now state.now.word }
    ensures word { result.0 ≡ (action_of model.now behaviour.now state.now event.now).word }
    ensures sends { result.1 ≡ scheduled source.now.until source.now.object source.now.sent (action_of model.now behaviour.now state.now event.now).posts }
{
    let time = u64::from(event.time);
    match behaviour {
        Behaviour::Relay { delay, next } => {
            let post = Post {
                time: time + u64::from(*delay),
                dst: *next,
                load: event.load.wrapping_add(1),
            };
            (event.load, source.schedule_one(post))
        }
        Behaviour::Phold { spread, .. } => {
            let (after, post) = hold(model, *spread, state.word, event);
            (after, source.schedule_one(post))
        }
        Behaviour::Station { service, next } => {
            let ready = served(*service, state.word, event.time);
            let post = Post {
                time: ready,
                dst: *next,
                load: event.load,
            };
            (ready, source.schedule_one(post))
        }
        Behaviour::Fan { delay, targets } => {
            let due = time + u64::from(*delay);
            (
                event.load,
                source.schedule_each(due, event.load, targets.as_slice()),
            )
        }
        Behaviour::Sink => (state.word.wrapping_add(event.load), Sends::none()),
    }
}

/// Runs an event at its object, which always succeeds: changes the object's state and answers what it schedules.
pub fn react(model: &Model, object: u32, state: &mut ObjectState, event: &Event) -> Sends
    requires there { IsObject (length model.now.objects) object }
    requires here { event.now.dst ≡ object }
    requires time { event.now.time ≤ model.now.until }
    requires count { state.old.count < 2 ^ 62 }
    requires sent { state.old.sent < 2 ^ 62 }
    requires word { IsWordOf (behaviour_at model.now object) state.old.word }
    ensures state { state.new ≡ (reaction_of model.now object state.old event.now).state }
    ensures sends { result ≡ (reaction_of model.now object state.old event.now).sends }
{
    model.is_model();
    let acting = &model.objects()[object as usize - 1];
    let source = Source {
        object,
        sent: state.sent,
        until: model.until(),
    };
    let (word, sends) = act(model, &acting.behaviour, &source, state, event);
    *state = ObjectState {
        count: state.count + 1,
        word,
        sent: state.sent + sends.len() as u64,
    };
    sends
}
