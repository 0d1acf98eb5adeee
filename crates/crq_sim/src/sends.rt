//! What an object sends at one event.

ghost use Rattle.std.specs.Prelude.{◌≡◌, ◌+◌, ◌<◌, ◌≤◌, ◌^◌, [], ◌∷◌, ◌++◌, length, map, IsTrue, ◌↔◌};
ghost use Rattle.crq_sim.specs.Reactions.{scheduled};
ghost use Rattle.crq_sim.specs.declared.sends.Post.{Post};

use crq_base::Event;
use std::marker;

/// How many events an object sends at one event at most.
const MOST: usize = 4;

/// What an object would send: when, to which object, and with which load. It is scheduled only if it is due by the end.
#[derive(Clone, Copy, Debug, PartialEq, Eq)]
pub struct Post {
    /// In ticks; it may lie beyond the range of an event's time.
    pub time: u64,
    pub dst: u32,
    pub load: u64,
}

/// The events that an object sends at one event, at most four, in order.
#[derive(Debug, Drop)]
pub struct Sends {
    events: [Event; MOST],
    len: usize,
}

impl marker::Model for Sends {
    ghost use Rattle.std.specs.Prelude.{List, ◌≤◌, take};
    ghost use Rattle.crq_base.specs.declared.event.Event.{Event};

    ghost Value = { List Event };

    ghost view = { λ s. take s.len s.events };

    ghost invariant = { λ s. s.len ≤ 4 };
}

impl Sends {
    /// No event.
    pub fn none() -> Sends
        ensures { result ≡ [] }
    {
        let nothing = Event {
            time: 0,
            src: 0,
            seq: 0,
            dst: 0,
            load: 0,
        };
        Sends {
            events: [nothing; MOST],
            len: 0,
        }
    }

    /// The events in order.
    pub fn as_slice(&self) -> &[Event]
        ensures value { result.now ≡ self.now }
        ensures few { length result.now ≤ 4 }
    {
        &self.events[..self.len]
    }

    /// How many there are.
    pub fn len(&self) -> usize
        ensures value { result ≡ length self.now }
        ensures few { result ≤ 4 }
    {
        self.as_slice().len()
    }

    /// Whether there is none.
    pub fn is_empty(&self) -> bool
        ensures { IsTrue result ↔ (self.now ≡ []) }
    {
        self.as_slice().is_empty()
    }

    /// Adds an event at the end.
    fn push(&mut self, event: Event)
        requires { length self.old < 4 }
        ensures { self.new ≡ self.old ++ event ∷ [] }
    {
        self.events[self.len] = event;
        self.len += 1;
    }
}

/// Where an object's events come from: the object, how many it had sent before, and when the run ends.
#[derive(Clone, Copy, Debug)]
pub struct Source {
    pub object: u32,
    pub sent: u64,
    pub until: u32,
}

impl Source {
    /// Schedules a post if it is due by the end, after those that were sent at this event already.
    pub fn schedule(&self, sends: &mut Sends, post: Post)
        requires few { length sends.old < 4 }
        requires sent { self.now.sent < 2 ^ 62 }
        ensures { sends.new ≡ sends.old ++ scheduled self.now.until self.now.object (self.now.sent + length sends.old) (post ∷ []) }
    {
        let until = u64::from(self.until);
        if post.time <= until {
            let event = Event {
                time: post.time as u32,
                src: self.object,
                seq: self.sent + sends.len() as u64,
                dst: post.dst,
                load: post.load,
            };
            sends.push(event);
        }
    }

    /// What is sent where there is one post.
    pub fn schedule_one(&self, post: Post) -> Sends
        requires { self.now.sent < 2 ^ 62 }
        ensures { result ≡ scheduled self.now.until self.now.object self.now.sent (post ∷ []) }
    {
        let mut sends = Sends::none();
        self.schedule(&mut sends, post);
        sends
    }

    /// What is sent where the same goes to each of the targets.
    pub fn schedule_each(&self, time: u64, load: u64, targets: &[u32]) -> Sends
        requires few { length targets.now ≤ 4 }
        requires sent { self.now.sent < 2 ^ 62 }
        ensures { result ≡ scheduled self.now.until self.now.object self.now.sent (map (λ target. record { time = time; dst = target; load = load }) targets.now) }
    {
        let mut sends = Sends::none();
        for target in targets {
            let dst = *target;
            self.schedule(&mut sends, Post { time, dst, load });
        }
        sends
    }
}
