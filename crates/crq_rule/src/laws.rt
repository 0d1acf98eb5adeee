//! Laws of the rule: facts about every state that meets the invariant, and about every step. They hold by proof, and
//! running them does nothing.
ghost use Rattle.std.specs.Prelude.{◌≡◌, ◌≢◌, ℕ, ◌+◌, ◌-◌, ◌*◌, ◌/◌, ◌<◌, ◌≤◌, List, [], ◌++◌, length, take, Some};
ghost use Rattle.atomic_table.specs.Table.{opening, Joins, Me, Splits};
ghost use Rattle.crq_base.specs.declared.words.Mark.TheVariants.{Inv as Invalid};
ghost use Rattle.crq_base.specs.Starts.{IsFirst};
ghost use Rattle.crq_base.specs.Lists.{In};
ghost use Rattle.crq_base.specs.Refusals.{AreCounted};
ghost use Rattle.crq_base.specs.declared.event.Event.{Event};
ghost use Rattle.crq_base.specs.declared.words.Control.{Control};
ghost use Rattle.crq_base.specs.declared.words.Current.{Current};
ghost use Rattle.crq_rule.specs.declared.layout.Start.{Start};
ghost use Rattle.crq_rule.specs.declared.view.Sight.{Sight};
ghost use Rattle.crq_rule.specs.declared.view.Guard.TheVariants.{On};
ghost use Rattle.crq_rule.specs.declared.view.Base.{Base};
ghost use Rattle.crq_rule.specs.declared.view.Made.{Made};
ghost use Rattle.crq_rule.specs.declared.view.View.{View};
ghost use Rattle.crq_rule.specs.Places.{Place, word_of, Shows};
ghost use Rattle.crq_rule.specs.Core.{Core, caller_of};
ghost use Rattle.crq_rule.specs.Invariant.{Inv};
ghost use Rattle.crq_rule.specs.ScarceParts.{pending};
ghost use Rattle.crq_rule.specs.Kinds.{after_made, new_base, FoundNoRow, IsRipe};
ghost use Rattle.crq_rule.specs.Steps.{Kind, recovery_load, look, raise, mark, May, After, IsStep, place_of, entries_of};
ghost use Rattle.crq_rule.specs.Rule.{Stands, first_view, joined, spent, head_view, tail_view, IsFirstApart};
ghost use Rattle.crq_rule.specs.Deals.{HasAll, LoadsSpare, Gathered, IsSilent, spans};
ghost use Rattle.crq_rule.specs.Opening.{opening_core, opening_words};
ghost use Rattle.crq_rule.specs.Stated.{WordsHold, HoldersHold, GuardsHold, CoverHolds, ListsHold, CarriersHold, HistoryHolds, CurrentHolds, WalkersHold, ScarcityHolds, BoundsHold, HelpersHold, CopiesHold, EndingHolds, IsCovered, HasTwin, Witness};

/// Each kind of step keeps the invariant, from every state that meets it. It changes the word of its kind alone, if any,
/// and what its own caller knows alone, and it adds its entries to the history, which is else as it was.
pub fn step_law()
    ensures keeps { (k : Kind) (c c' : Core) (j : ℕ) → j < c.start.layout.workers → IsStep k c j c' → Inv c → Inv c' }
    ensures words { (k : Kind) (c c' : Core) (j : ℕ) → IsStep k c j c' → (p : Place) → p ≢ place_of k j → word_of c'.words p ≡ word_of c.words p }
    ensures others { (k : Kind) (c c' : Core) (j : ℕ) → IsStep k c j c' → (i : ℕ) → i ≢ j → caller_of c' i ≡ caller_of c i }
    ensures history { (k : Kind) (c c' : Core) (j : ℕ) → IsStep k c j c' → (c'.start ≡ c.start) × (c'.deal ≡ c.deal) × (c'.history ≡ c.history ++ entries_of k j) }
    ensures made { (c : Core) (j : ℕ) (m : Made) → Inv c → Inv (after_made c j m) }
{}

/// Cutting a seat in two keeps the rule, and so does joining two seats.
pub fn seat_law()
    ensures splits { (key : Start) (id : ℕ) (v : View) → IsFirstApart v → Splits (Stands key) id v (head_view v) (tail_view v) }
    ensures joins { (key : Start) (id other : ℕ) (v w : View) → Joins (Stands key) id v other w (joined v w) spent }
{}

/// A load of the spare word through a seat that carries all callers keeps the rule. It may deal the history so far to all
/// callers, and where no caller has made an entry since the last deal, any span.
pub fn gather_law()
    ensures gathers { (key : Start) (slots id : ℕ) (me : Me (Unit {0}) View) → HasAll key.layout.workers me.0 → LoadsSpare key slots id me (λ m. Gathered me.0 m.0 × (m.1 ≡ me.1)) }
    ensures respans { (key : Start) (slots id span : ℕ) (me : Me (Unit {0}) View) → 0 < span → HasAll key.layout.workers me.0 → IsSilent me.0 → LoadsSpare key slots id me (λ m. m ≡ (spans span me.0, me.1)) }
{}

/// A row that a caller may claim is covered by no guard, in every state that meets the invariant.
pub fn claim_law()
    ensures { (c : Core) (j r e : ℕ) → j < c.start.layout.workers → In e (c.epochs j) → IsRipe (c.ripening j) r e → Inv c → (k g : ℕ) → IsCovered c k g r → ⊥ }
{}

/// While a guard is on that found the epoch g, the epoch is at most g + 1.
pub fn guard_law()
    ensures { (c : Core) (k g : ℕ) → Inv c → k < c.start.layout.workers → c.guard k ≡ On g → (g ≤ c.words.epoch) × (c.words.epoch ≤ g + 1) }
{}

/// A new table stands for a state that meets the invariant.
pub fn opening_law()
    ensures keeps { (start : Start) → IsFirst start.first → Inv (opening_core start) }
    ensures stands { (start : Start) (ws : List ℕ) → IsFirst start.first → Shows start.layout (opening_words start) ws → Stands start (opening ws [] (first_view start)) }
{}

/// The invariant that is kept implies each of its parts as it is stated: on words, on the holders of rows, on guards, on
/// covered rows, on lists, on the rows that carry pending events, on the history, on current, on takes that walk, on
/// recoveries of rows, on how far counters may rise, on what helpers of a move have passed, on copies, and on how a move ends.
pub fn parts_law()
    ensures words { (c : Core) → Inv c → WordsHold c }
    ensures holders { (c : Core) → Inv c → HoldersHold c }
    ensures guards { (c : Core) → Inv c → GuardsHold c }
    ensures cover { (c : Core) → Inv c → CoverHolds c }
    ensures lists { (c : Core) → Inv c → ListsHold c }
    ensures carriers { (c : Core) → Inv c → CarriersHold c }
    ensures history { (c : Core) → Inv c → HistoryHolds c }
    ensures current { (c : Core) → Inv c → CurrentHolds c }
    ensures walkers { (c : Core) → Inv c → WalkersHold c }
    ensures scarcity { (c : Core) → Inv c → ScarcityHolds c }
    ensures bounds { (c : Core) → Inv c → BoundsHold c }
    ensures helpers { (c : Core) → Inv c → HelpersHold c }
    ensures copies { (c : Core) → Inv c → CopiesHold c }
    ensures ending { (c : Core) → Inv c → EndingHolds c }
{}

/// Once the next table is open, a take that read an older one can't do harm any more: it may neither raise current nor mark
/// a row, so its exchange fails.
pub fn stale_law()
    ensures raises { (c : Core) (j : ℕ) (s : Sight) (x : Control) (y : Current) → Inv c → j < c.start.layout.workers → c.sight j ≡ Some s → s.table.generation < c.words.control.generation → May (raise x y) c j → ⊥ }
    ensures marks { (c : Core) (j r : ℕ) (e : Event) (s : Sight) → Inv c → j < c.start.layout.workers → c.sight j ≡ Some s → s.table.generation < c.words.control.generation → May (mark r e) c j → ⊥ }
{}

/// Some state in which current was raised meets the invariant.
pub fn current_law()
    ensures { (c : Core) × Inv c × (0 < c.words.current.tick) }
{}

/// Some state in the middle of a move meets the invariant: a row of the open table is frozen, and its copy in the next
/// table is bound and not valid yet.
pub fn move_law()
    ensures { (c : Core) × Inv c × ((r : ℕ) × (t : ℕ) × HasTwin c r t × ((c.words.link t).mark ≡ Invalid)) }
{}

/// A recovery of rows begins with a load of the epoch, and notes where the history is and which events are pending there.
/// Once the epoch has risen by three since, and after that none of the caller's home rows was found ripe, a caller without
/// a row in hand refuses and keeps these events: twice their number is at least the number of its rows. They were pending
/// when the recovery began. So they are different events, more than half of `rows - 2`, that were put, and of which none
/// was taken before the caller's last Begin, nor before any other.
pub fn scarcity_law()
    ensures begins { (c : Core) (j : ℕ) → (After recovery_load c j).base j ≡ Some (new_base (length c.history) (pending c.history) c.words.epoch) }
    ensures refuses { (c : Core) (j r : ℕ) (b : Base) → FoundNoRow (caller_of (After (look r) c j) j) b → (After (look r) c j).refused j ≡ b.events }
    ensures count { (c : Core) (k : ℕ) (b : Base) → Inv c → k < c.start.layout.workers → FoundNoRow (caller_of c k) b → c.start.layout.rows ≤ 2 * length b.events }
    ensures pending { (c : Core) (k : ℕ) (b : Base) → Inv c → k < c.start.layout.workers → c.base k ≡ Some b → b.events ≡ pending (take b.place c.history) }
    ensures enough { (c : Core) (k : ℕ) (b : Base) → Inv c → k < c.start.layout.workers → FoundNoRow (caller_of c k) b → ((c.start.layout.rows - 2) / 2 < length b.events) × AreCounted c.history k b.events }
{}

/// Some state with a listed row that a guard covers, a cut row that has a tag, and a retired row meets the invariant.
pub fn witness_law()
    ensures { (c : Core) × Inv c × Witness c }
{}
