//! Laws of every schedule.

ghost use Rattle.std.specs.Prelude.{◌≡◌, ℕ, List, All};
ghost use Rattle.wal_event.specs.Event.{Fits, IsSchedule};
ghost use Rattle.wal_event.specs.declared.event.Event.{Event};
ghost use Rattle.wal_event.specs.declared.event.Schedule.{Schedule};
ghost use Rattle.wal_event.specs.declared.line.Line.{Line};
ghost use Rattle.wal_protocol.specs.State.{World};
ghost use Rattle.wal_protocol.specs.Run.{IsRun, first_state};
ghost use Rattle.wal_protocol.specs.Facts.{Facts};
ghost use Rattle.wal_protocol.specs.Total.{Possible, HasBytes, HasStep, HasRun};
ghost use Rattle.wal_protocol.specs.Safe.{EachStep, IsRecoveryComplete, IsSafe};
ghost use Rattle.wal_theorem.specs.Instance.{rules_of};
ghost use Rattle.wal_theorem.specs.OfBytes.{WorldOfBytes};
ghost use Rattle.wal_protocol.specs.Step.{Steps};
ghost use Rattle.wal_protocol.specs.Determined.{SameLines, SameStep};

use wal_tree::Hash32;

/// Every run of a schedule is safe, and a shard that hears enough others recovers its sliver, or
/// learns that the blob was badly encoded.
pub fn every_run<H: Hash32>()
    ensures safe { (s : Schedule) (states : List World) (lines : List Line) → IsSchedule s
        → IsRun (rules_of H.digest s.f) s states lines
        → IsSafe (rules_of H.digest s.f) s states lines }
    ensures recovers { (s : Schedule) (states : List World) (lines : List Line) → IsSchedule s
        → IsRun (rules_of H.digest s.f) s states lines
        → EachStep IsRecoveryComplete (first_state s) s.events states lines }
{}

/// An event in a state gives one line, but for the two texts of a collision, and leads to one
/// state; and a schedule has one run, up to a collision, behind which nothing is taken.
pub fn one_run<H: Hash32>()
    ensures step { (f : ℕ) (old : World) (event : Event) (a b : Line) (x y : World)
        → Steps (rules_of H.digest f) old event a x → Steps (rules_of H.digest f) old event b y
        → SameStep a b x y }
    ensures run { (s : Schedule) (some others : List World) (xs ys : List Line)
        → IsRun (rules_of H.digest s.f) s some xs → IsRun (rules_of H.digest s.f) s others ys
        → SameLines xs ys }
{}

/// An event in range has a step in each state that has the facts and holds bytes, and a schedule of
/// bytes has a run: it is impossible that there is none. A schedule begins in such a state, and
/// events lead to such states.
pub fn every_event<H: Hash32>()
    ensures step { (f : ℕ) (old : World) (event : Event) → Facts (rules_of H.digest f) old
        → WorldOfBytes old → Fits f event → HasBytes event
        → Possible (HasStep (rules_of H.digest f) old event) }
    ensures run { (s : Schedule) → IsSchedule s → All HasBytes s.events
        → Possible (HasRun (rules_of H.digest s.f) s) }
    ensures start { (s : Schedule) → IsSchedule s
        → Facts (rules_of H.digest s.f) (first_state s) × WorldOfBytes (first_state s) }
    ensures kept { (f : ℕ) (old : World) (event : Event) (said : Line) (new : World)
        → Facts (rules_of H.digest f) old → WorldOfBytes old → Fits f event → HasBytes event
        → Steps (rules_of H.digest f) old event said new
        → Facts (rules_of H.digest f) new × WorldOfBytes new }
{}
