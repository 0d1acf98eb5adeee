//! Laws of runs and their windows. Each function states one law, and does nothing.

ghost use Rattle.std.specs.Prelude.{◌≡◌, ◌⊎◌, ◌↔◌, ℕ, suc, ◌+◌, ◌*◌, ◌<◌, ◌≤◌, max, List, [], ◌++◌, length, Contains};
ghost use Rattle.std.specs.List.{AllByRecursion};
ghost use Rattle.crq_base.specs.declared.event.Event.{Event};
ghost use Rattle.crq_base.specs.Keys.{IsBefore};
ghost use Rattle.crq_sim.specs.declared.model.Start.{Start};
ghost use Rattle.crq_sim.specs.declared.reaction.ObjectState.{ObjectState};
ghost use Rattle.crq_sim.specs.EventLists.{with_event, without_event, AreInOrder, IsHead, HaveKeysApart, HaveNumbersApart};
ghost use Rattle.crq_sim.specs.Examples.{relay_pair, three_starts};
ghost use Rattle.crq_sim.specs.Models.{ModelData, IsModel, IsObject};
ghost use Rattle.crq_sim.specs.Reactions.{behaviour_at, state_after, sends_of, IsWordOf};
ghost use Rattle.crq_sim.specs.Runs.{Simulation, state_of, after_events, events_sent, scheduled_starts, beginning, simulation_at};
ghost use Rattle.crq_sim.specs.Simulations.{IsSimulation, next_number};
ghost use Rattle.crq_sim.specs.WindowRuns.{AreBelow, AreFrom, CanRun, RunsWindow};
ghost use Rattle.crq_sim.specs.Windows.{EndsWindow, IsWindowEnd, IsInWindow, IsInWindowFrom, IsLastWindow, WindowData, IsWindow, IsPeak, Stop, Events, Rows, HasMoreEvents, HasFewRows, IsStop};

/// Once nothing is pending nothing changes, so it doesn't matter how many more events are asked for.
pub fn end_law()
    ensures { (m : ModelData) (w : Simulation) (n k : ℕ) → (after_events m w n).pending ≡ [] → after_events m w (n + k) ≡ after_events m w n }
{}

/// A model begins with a simulation of it, and a run leads from one to the next; where it stopped between is all one.
pub fn simulation_law()
    ensures begins { (m : ModelData) → IsModel m → IsSimulation m (beginning m) }
    ensures goes_on { (m : ModelData) (w : Simulation) (n : ℕ) → IsModel m → IsSimulation m w → IsSimulation m (after_events m w n) }
    ensures parts { (m : ModelData) (w : Simulation) (n k : ℕ) → after_events m w (n + k) ≡ after_events m (after_events m w n) k }
{}

/// The serial run takes the least pending event each time, and its event list loses and invents nothing.
pub fn order_law()
    ensures in_order { (m : ModelData) (n : ℕ) → IsModel m → AreInOrder (simulation_at m n).pending }
    ensures least { (es : List Event) (e f : Event) → AreInOrder es → IsHead e es → Contains es f → (f ≡ e) ⊎ IsBefore e f }
    ensures added { (x e : Event) (pending : List Event) → Contains (with_event e pending) x ↔ ((e ≡ x) ⊎ Contains pending x) }
    ensures removed { (x e : Event) (pending : List Event) → Contains (without_event e pending) x ↔ (Contains pending x × (e ≡ x → ⊥)) }
    ensures one { (es fs : List Event) → AreInOrder es → AreInOrder fs → ((e : Event) → Contains es e ↔ Contains fs e) → es ≡ fs }
{}

/// A reaction keeps what the next one at its object asks for: the word is one of its behaviour, and the counts rise by what
/// was done, which is one event run and four sent at the most.
pub fn reaction_law()
    ensures word { (m : ModelData) (o : ℕ) (s : ObjectState) (e : Event) → IsWordOf (behaviour_at m o) (state_after m o s e).word }
    ensures count { (m : ModelData) (o : ℕ) (s : ObjectState) (e : Event) → (state_after m o s e).count ≡ s.count + 1 }
    ensures sent { (m : ModelData) (o : ℕ) (s : ObjectState) (e : Event) → (state_after m o s e).sent ≡ s.sent + length (sends_of m o s e) }
    ensures few { (m : ModelData) (o : ℕ) (s : ObjectState) (e : Event) → IsModel m → IsObject (length m.objects) o → length (sends_of m o s e) ≤ 4 }
{}

/// Of a run: an event is sent at an event of the run, at least the lookahead before it, and isn't later than the end; and
/// no two events of a run, starts and sent ones together, have one key.
pub fn run_law()
    ensures late { (m : ModelData) (w : Simulation) (e x : Event) → IsModel m → IsSimulation m w → IsHead e w.pending
        → Contains (sends_of m e.dst (state_of w.states e.dst) e) x → (e.time + m.lookahead ≤ x.time) × (x.time ≤ m.until) }
    ensures sent { (m : ModelData) (w : Simulation) (n : ℕ) (x : Event) → Contains (events_sent m w n) x
        → (k : ℕ) × (e : Event) × (k < n) × IsHead e (after_events m w k).pending × Contains (sends_of m e.dst (state_of (after_events m w k).states e.dst) e) x }
    ensures apart { (m : ModelData) (n : ℕ) → IsModel m → HaveKeysApart (scheduled_starts m.until 0 m.starts ++ events_sent m (beginning m) n) }
{}

/// Each source numbers its events: an event that a run sends has a number that its source hadn't given before, and no two
/// events of a run, starts and sent ones together, have one source and number.
pub fn number_law()
    ensures starts { (m : ModelData) (e : Event) → Contains (scheduled_starts m.until 0 m.starts) e → (e.src ≡ 0) × (e.seq < length m.starts) }
    ensures sent { (m : ModelData) (w : Simulation) (n : ℕ) (e : Event) → IsModel m → IsSimulation m w → Contains (events_sent m w n) e
        → (0 < e.src) × (next_number m w.states e.src ≤ e.seq) × (e.seq < next_number m (after_events m w n).states e.src) }
    ensures rise { (m : ModelData) (w : Simulation) (n src : ℕ) → IsModel m → IsSimulation m w → next_number m w.states src ≤ next_number m (after_events m w n).states src }
    ensures apart { (m : ModelData) (n : ℕ) → IsModel m → HaveNumbersApart (scheduled_starts m.until 0 m.starts ++ events_sent m (beginning m) n) }
{}

/// How much a run of so many events comes to at most, and that what it sends is what its parts send.
pub fn bound_law()
    ensures states { (m : ModelData) (n o : ℕ) → IsModel m → ((state_of (simulation_at m n).states o).count ≤ n) × ((state_of (simulation_at m n).states o).sent ≤ 4 * n) }
    ensures starts { (until n : ℕ) (starts : List Start) → length (scheduled_starts until n starts) ≤ length starts }
    ensures sent { (m : ModelData) (w : Simulation) (n : ℕ) → IsModel m → IsSimulation m w → length (events_sent m w n) ≤ 4 * n }
    ensures parts { (m : ModelData) (w : Simulation) (n k : ℕ) → events_sent m w (n + k) ≡ events_sent m w n ++ events_sent m (after_events m w n) k }
{}

/// Each event that is run is in exactly one window, a window has one end, and one window is the last.
pub fn one_window_law()
    ensures some { (m : ModelData) (w : Simulation) (n : ℕ) → IsModel m → IsSimulation m w → ((after_events m w n).pending ≡ [] → ⊥) → (k : ℕ) × IsInWindowFrom m w k n }
    ensures one { (m : ModelData) (w : Simulation) (k k' n : ℕ) → IsInWindowFrom m w k n → IsInWindowFrom m w k' n → k ≡ k' }
    ensures end { (m : ModelData) (w : Simulation) (k n n' : ℕ) → IsWindowEnd m w k n → IsWindowEnd m w k n' → n ≡ n' }
    ensures last { (m : ModelData) (w : Simulation) (k j : ℕ) → IsLastWindow m w k → IsLastWindow m w j → k ≡ j }
{}

/// Running the events below an edge does at each object what the object's own events do, in whatever order the objects
/// are taken, where none of these events may send below the edge.
pub fn window_law()
    ensures { (m : ModelData) (edge : ℕ) (below rest : List Event) (w : Simulation) → IsModel m → length w.states ≡ length m.objects → w.pending ≡ below ++ rest
        → AllByRecursion (CanRun m edge) below → AreFrom edge rest → RunsWindow m edge w below rest }
{}

/// In each simulation of a run the events below the time of the first one plus the lookahead stand in front: they are
/// the next window, and running them is the next part of the run (Nicol, "The cost of conservative synchronization in
/// parallel discrete event simulations", 1993).
pub fn next_window_law()
    ensures { (m : ModelData) (w : Simulation) (e : Event) → IsModel m → IsSimulation m w → IsHead e w.pending
        → (below : List Event) × (rest : List Event) × (w.pending ≡ below ++ rest) × AreBelow (e.time + m.lookahead) below × AreFrom (e.time + m.lookahead) rest
        × EndsWindow m w (length below) × RunsWindow m (e.time + m.lookahead) w below rest }
{}

/// A window is one: its events, what they sent and how many are pending after it are determined, and it has them where it
/// has an end. Windows 1 to k have as many events in all as the number after which window k ends.
pub fn window_data_law()
    ensures one { (m : ModelData) (w : Simulation) (k : ℕ) (x y : WindowData) → IsWindow m w k x → IsWindow m w k y → x ≡ y }
    ensures some { (m : ModelData) (w : Simulation) (k n : ℕ) → IsWindowEnd m w k n → (x : WindowData) × IsWindow m w k x × (x.pending ≡ length (after_events m w n).pending) }
    ensures many { (m : ModelData) (w : Simulation) (k i n : ℕ) (x : WindowData) → IsModel m → IsSimulation m w → IsWindowEnd m w k i → IsWindowEnd m w (suc k) n → IsWindow m w (suc k) x
        → n ≡ i + length x.events }
{}

/// After a window there are pending as many events as before it, less its own, and with those that they sent.
pub fn count_law()
    ensures { (m : ModelData) (w : Simulation) (k : ℕ) (x y : WindowData) → IsWindow m w k x → IsWindow m w (suc k) y → y.pending + length y.events ≡ x.pending + length y.sends }
{}

/// The peak is one, and is found window by window.
pub fn peak_law()
    ensures begins { (m : ModelData) (w : Simulation) → IsPeak m w 0 (length w.pending) }
    ensures next { (m : ModelData) (w : Simulation) (k peak : ℕ) (x : WindowData) → IsPeak m w k peak → IsWindow m w (suc k) x → IsPeak m w (suc k) (max peak x.pending) }
    ensures one { (m : ModelData) (w : Simulation) (k p q : ℕ) → IsPeak m w k p → IsPeak m w k q → p ≡ q }
{}

/// What stops a run in windows is one, and is seen of each window from its end and its number of pending events; a run
/// whose windows all pass goes to its end.
pub fn stop_law()
    ensures one { (m : ModelData) (w : Simulation) (cap rows : ℕ) (s t : Stop) → IsStop m w cap rows s → IsStop m w cap rows t → s ≡ t }
    ensures events { (m : ModelData) (w : Simulation) (cap k n : ℕ) → IsWindowEnd m w k n → HasMoreEvents m w cap k ↔ (cap < n) }
    ensures rows { (m : ModelData) (w : Simulation) (rows k p : ℕ) (x : WindowData) → IsWindow m w k x → HasFewRows m w rows k p ↔ ((p ≡ x.pending) × (rows < 2 * x.pending + 2)) }
    ensures never { (m : ModelData) (w : Simulation) (cap rows k n : ℕ) → IsWindowEnd m w k n → (after_events m w n).pending ≡ [] → n ≤ cap
        → ((j : ℕ) (p : ℕ) → j ≤ k → HasFewRows m w rows j p → ⊥) → (s : Stop) → IsStop m w cap rows s → ⊥ }
{}

/// Where the rows are enough, a run in windows stops by events at the very window that `serial` answers.
pub fn serial_stop_law()
    ensures stops { (m : ModelData) (cap rows k : ℕ) → IsModel m → IsInWindow m k cap
        → ((j : ℕ) (p : ℕ) → j < k → HasFewRows m (beginning m) rows j p → ⊥) → IsStop m (beginning m) cap rows (Events k) }
    ensures in_window { (m : ModelData) (cap rows k : ℕ) → IsStop m (beginning m) cap rows (Events k) → IsInWindow m k cap }
{}

/// Worked examples of windows, peak and stop. A pair of relays has three windows with an event each. Of three events at 0,
/// 4 and 5 with lookahead 5 the third is at the first window's edge, and so in the second; seven rows are too few for them.
pub fn example_law()
    ensures pair_ends { IsWindowEnd relay_pair (beginning relay_pair) 3 3 × ((simulation_at relay_pair 3).pending ≡ []) }
    ensures pair_pending { (length (simulation_at relay_pair 0).pending ≡ 1) × (length (simulation_at relay_pair 1).pending ≡ 1)
        × (length (simulation_at relay_pair 2).pending ≡ 1) × (length (simulation_at relay_pair 3).pending ≡ 0) }
    ensures pair_peak { IsPeak relay_pair (beginning relay_pair) 3 1 }
    ensures three_ends { IsWindowEnd three_starts (beginning three_starts) 1 2 × IsWindowEnd three_starts (beginning three_starts) 2 3 }
    ensures three_peak { IsPeak three_starts (beginning three_starts) 2 3 }
    ensures three_stop { IsStop three_starts (beginning three_starts) 100 7 (Rows 0 3) }
    ensures three_goes { (s : Stop) → IsStop three_starts (beginning three_starts) 100 8 s → ⊥ }
{}
