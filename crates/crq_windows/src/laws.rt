//! Laws of groups. A law does nothing, and states what follows from definitions.

ghost use Rattle.std.specs.Prelude.{◌≡◌, ◌↔◌, ℕ, List, [], Contains};
ghost use Rattle.crq_base.specs.declared.event.Event.{Event};
ghost use Rattle.crq_sim.specs.EventLists.{AreInOrder};
ghost use Rattle.crq_sim.specs.WindowRuns.{events_of};
ghost use Rattle.crq_windows.specs.declared.group.Group.{Group};
ghost use Rattle.crq_windows.specs.Groups.{group_events, IsGroup, AreGroups};

/// The events of a window may come in any order: each group has what its object has of the window's events in order of
/// their keys, an object without a group has none of them, and an object has one group at most.
pub fn group_law()
    ensures events { (objects : ℕ) (events below : List Event) (g : Group) → IsGroup objects events g → AreInOrder below → ((e : Event) → Contains events e ↔ Contains below e)
        → group_events events g ≡ events_of g.object below }
    ensures none { (objects o : ℕ) (events below : List Event) (groups : List Group) → AreGroups objects events groups → ((e : Event) → Contains events e ↔ Contains below e)
        → ((g : Group) → Contains groups g → g.object ≡ o → ⊥) → events_of o below ≡ [] }
    ensures one { (objects : ℕ) (events : List Event) (groups : List Group) (g h : Group) → AreGroups objects events groups → Contains groups g → Contains groups h → g.object ≡ h.object → g ≡ h }
{}
