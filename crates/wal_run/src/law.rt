//! Laws of `replay`.

ghost use Rattle.std.specs.Prelude.{ℕ, List, Ok};
ghost use Rattle.wal_event.specs.declared.event.Schedule.{Schedule};
ghost use Rattle.wal_protocol.specs.Total.{HasRun, Possible};
ghost use Rattle.wal_schedule.specs.Grammar.{IsRead};
ghost use Rattle.wal_theorem.specs.Instance.{rules_of};

use wal_tree::Hash32;

/// Every schedule that an input spells has a run: it is impossible that there is none.
pub fn spelled_schedule_has_run<H: Hash32>()
    ensures { (input : List ℕ) (s : Schedule) → IsRead input (Ok s)
        → Possible (HasRun (rules_of H.digest s.f) s) }
{}
