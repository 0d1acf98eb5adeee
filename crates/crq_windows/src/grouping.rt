//! The events of a window by their objects.

ghost use Rattle.std.specs.Prelude.{◌≡◌, ℕ, ◌+◌, ◌-◌, ◌<◌, ◌≤◌, length, get_or, All, IfOk};
ghost use Rattle.std.specs.List.Sorted.{IsPermutation};
ghost use Rattle.crq_base.specs.declared.event.Event.{Event};
ghost use Rattle.crq_sim.specs.EventLists.{HaveKeysApart};
ghost use Rattle.crq_sim.specs.Models.{IsObject};
ghost use Rattle.crq_windows.specs.Arranged.{object_cmp, IsArranged, AreDistinct};
ghost use Rattle.crq_windows.specs.Groups.{AreGroups};

use crate::group::{Group, Groups};
use crq_base::{Event, Memory};
use crq_sim::Sequence;
use std::alloc::Global;
use std::cmp::Ordering;

/// Sorts the events of a window by the object at which they happen and then by their keys, and answers where those of
/// each object stand. `objects` is how many objects there are. `Memory` means that memory for the groups was refused;
/// the events are all there then too, in whatever order.
pub fn group_by_object(
    alloc: Global,
    events: &mut Vec<Event>,
    objects: u32,
) -> Result<Groups, Memory>
    requires known { All (λ (e : Event). IsObject objects e.dst) events.old.items }
    requires apart { HaveKeysApart events.old.items }
    ensures groups { IfOk result (λ groups. AreGroups objects events.new.items groups) }
    ensures same { IsPermutation events.old.items events.new.items }
{
    events.sort_unstable_by(by_object);
    groups_of(alloc, events.as_slice(), objects)
}

// the order of objects, and at one object the order of events
fn by_object(one: &Event, other: &Event) -> Ordering
    ensures { result ≡ object_cmp one.now other.now }
{
    one.dst.cmp(&other.dst).then(one.cmp(other))
}

fn groups_of(alloc: Global, events: &[Event], objects: u32) -> Result<Groups, Memory>
    requires known { All (λ (e : Event). IsObject objects e.dst) events.now }
    requires distinct { AreDistinct events.now }
    requires arranged { IsArranged events.now }
    ensures groups { IfOk result (λ groups. AreGroups objects events.now groups) }
{
    let mut groups = Vec::new(alloc);
    let mut from = 0;
    while from < events.len() {
        let upto = group_end(events, from);
        let object = events[from].dst;
        if groups.push(Group { object, from, upto }).is_err() {
            return Err(Memory);
        }
        from = upto;
    }
    Ok(Sequence::from_vec(groups))
}

// the place after the last event in a row at the object of the event at `from`
fn group_end(events: &[Event], from: usize) -> usize
    requires inside { from < length events.now }
    ensures after { from < result }
    ensures within { result ≤ length events.now }
    ensures last { (d : Event) → (get_or events.now (result - 1) d).dst ≡ (get_or events.now from d).dst }
    ensures next { (d : Event) → result < length events.now → (get_or events.now result d).dst ≡ (get_or events.now from d).dst → ⊥ }
{
    let object = events[from].dst;
    let mut upto = from + 1;
    while upto < events.len() && events[upto].dst == object {
        upto += 1;
    }
    upto
}
