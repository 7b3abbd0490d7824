//! What a shard served are steps of the network, and rests on each blob alone: definitions, proofs,
//! and the laws as calls.
#![tactic(auto)]

ghost use Rattle.wal_served.specs.Local.{AnswersAlike, AnswersWithRoom, LeavesAlike, ReadsRestOn};
ghost use Rattle.wal_served.specs.Local.{Rebuilds, ServesWhatIsLeft, WantsForMore};
ghost use Rattle.wal_served.specs.Steps.{EveryRequest, EveryServing};

use wal_tree::Hash32;

/// Whatever the table of `serve` has for a request, what the shard answers and becomes is a step of
/// its event, if there is room, and the answer is the one that belongs to the step's line. What
/// is asked of it has the true reply, and a refusal changes nothing. So up to the first entry for
/// the very shard that serves, all of it is one run.
pub fn every_request<H: Hash32>()
    ensures request { EveryRequest H.digest }
    ensures serving { EveryServing H.digest }
{}

/// What is answered to a request about an identifier rests on what was given about that identifier
/// alone: if two states are alike at it, they answer alike and are alike then, and what regards
/// another one leaves them alike. So what was served about others may be left out, a reply to a
/// reader rests on the parts that it shows, and a shard that is fed with the entries and then the
/// parts that another one has come to is alike to that one.
pub fn answers_are_local<H: Hash32>()
    ensures alike { AnswersAlike H.digest }
    ensures room { AnswersWithRoom H.digest }
    ensures want { WantsForMore H.digest }
    ensures others { LeavesAlike H.digest }
    ensures left { ServesWhatIsLeft H.digest }
    ensures reads { ReadsRestOn H.digest }
    ensures fed { Rebuilds H.digest }
{}
