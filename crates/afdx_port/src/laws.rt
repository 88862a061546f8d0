//! What is true of schedules, and of ports that stand for calls, over definitions alone.

ghost use Rattle.std.specs.Prelude.{◌≡◌, ℕ, ◌+◌, ◌<◌, ◌↔◌, ◌++◌, Bool, List, filter, Some, None};
ghost use Rattle.afdx_port.specs.Schedule.{Entry, Turn, IsNext, AreTurns, IsSchedule};
ghost use Rattle.afdx_port.specs.ScheduleOf.{AreInOrder, schedule_of};
ghost use Rattle.afdx_port.specs.Classes.{entries_in, AreOfOneClass, GoInOrder};
ghost use Rattle.afdx_port.specs.Due.{IsAfter};
ghost use Rattle.afdx_port.specs.Held.{due_of, IsQuiet, last_time, frames_held};
ghost use Rattle.afdx_port.specs.History.{PortHistory, due_at, StandsFor};
ghost use Rattle.afdx_port.specs.Ports.{FirstIsQuiet};
ghost use Rattle.afdx_port.specs.declared.port_state.PortState.{PortState};

use crate::HasLength;

/// Entries that stand in order have one schedule, and any turns of theirs, each next after those
/// before it, are its beginning.
pub fn one_schedule<T>()
    ensures exists { (byte_ns : ℕ) (entries : List (Entry T)) → AreInOrder entries →
        IsSchedule byte_ns entries (schedule_of byte_ns entries) }
    ensures begins { (byte_ns : ℕ) (entries : List (Entry T)) (turns begun : List (Turn T)) →
        IsSchedule byte_ns entries turns → AreTurns byte_ns entries begun →
        (later : List (Turn T)) × (turns ≡ later ++ begun) }
    ensures unique { (byte_ns : ℕ) (entries : List (Entry T)) (a b : List (Turn T)) →
        IsSchedule byte_ns entries a → IsSchedule byte_ns entries b → a ≡ b }
{}

/// First in, first out: frames of one class, as those of one link, have their turns in the order in
/// which they came. What has had its turn is the beginning of what came, and all of it once each
/// has had its turn.
pub fn first_in_first_out<T>()
    ensures given { (byte_ns : ℕ) (test : Entry T → Bool) (entries : List (Entry T))
        (turns : List (Turn T)) → AreOfOneClass test entries → AreTurns byte_ns entries turns →
        GoInOrder test entries turns }
    ensures all { (byte_ns : ℕ) (test : Entry T → Bool) (entries : List (Entry T))
        (turns : List (Turn T)) → AreOfOneClass test entries → IsSchedule byte_ns entries turns →
        filter test entries ≡ filter test (entries_in turns) }
{}

/// The turns that were taken are the first of the schedule, whatever calls a port stands for.
pub fn taken_are_on_schedule<T: HasLength>()
    ensures schedule { (p : PortState T) (h : PortHistory T) → StandsFor T.facts p h →
        (later : List (Turn T)) × (schedule_of h.byte_ns h.entries ≡ later ++ h.taken) }
    ensures turns { (p : PortState T) (h : PortHistory T) → StandsFor T.facts p h →
        AreTurns h.byte_ns h.entries h.taken }
    ensures order { (p : PortState T) (h : PortHistory T) →
        StandsFor T.facts p h → AreInOrder h.entries }
    ensures clock { (p : PortState T) (h : PortHistory T) →
        StandsFor T.facts p h → last_time p ≡ h.time }
{}

/// What is due is the next turn, whatever calls a port stands for: no further turn is given by a
/// time exactly where the next one is over after it. Where nothing is due, each frame that was put
/// and not lost has had its turn. A port that holds nothing gives nothing.
pub fn due_is_next<T: HasLength>()
    ensures due { (p : PortState T) (h : PortHistory T) (s : Turn T) → StandsFor T.facts p h →
        IsNext h.byte_ns h.entries h.taken s → due_of T.facts p ≡ Some (due_at s) }
    ensures quiet { (p : PortState T) (h : PortHistory T) (t : ℕ) → StandsFor T.facts p h →
        (IsQuiet T.facts p t ↔ ((s : Turn T) → IsNext h.byte_ns h.entries h.taken s →
        IsAfter t (due_at s))) }
    ensures all_done { (p : PortState T) (h : PortHistory T) → StandsFor T.facts p h →
        due_of T.facts p ≡ None → IsSchedule h.byte_ns h.entries h.taken }
    ensures empty { (p : PortState T) (t : ℕ) → frames_held p ≡ 0 → IsQuiet T.facts p t }
{}

/// Of ports that are served together, the one whose turn goes first tells of all: where it gives
/// nothing by a time, none does.
pub fn first_tells_of_all<T: HasLength>()
    ensures { FirstIsQuiet T.facts }
{}
