//! Laws of schedules that texts spell.

ghost use Rattle.std.specs.Prelude.{ℕ, List, Ok};
ghost use Rattle.std.specs.List.{AllByRecursion};
ghost use Rattle.wal_event.specs.Event.{IsSchedule};
ghost use Rattle.wal_event.specs.declared.event.Schedule.{Schedule};
ghost use Rattle.wal_schedule.specs.Grammar.{IsRead};
ghost use Rattle.wal_schedule.specs.Writing.{HasBytes};

/// The schedule that a text spells is in range, its identifiers are 32 bytes, and what it carries
/// are bytes.
pub fn spelled_schedules()
    ensures range { (text : List ℕ) (s : Schedule) → IsRead text (Ok s) → IsSchedule s }
    ensures bytes { (text : List ℕ) (s : Schedule) → IsRead text (Ok s)
        → AllByRecursion HasBytes s.events }
{}
