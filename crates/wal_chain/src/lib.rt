//! Chains of posts: their heads, what a committee decides on a chain, and what is true of two
//! chains that part.
#![tactic(auto)]

ghost use Rattle.std.specs.Prelude.{◌≡◌, ◌⊎◌, ℕ, ◌≤◌, List, length};
ghost use Rattle.wal_chain.specs.Chain.{AreAllowed, chain_head, IsBroken, IsPlain, IsSeenOn};
ghost use Rattle.wal_chain.specs.Chain.{Post, Seal};
ghost use Rattle.wal_chain.specs.Fork.{IsFork, IsSound};
ghost use Rattle.wal_chain.specs.Votes.{HasDecided, Seats};

/// Of two chains that part, at most one goes on, for one committee: if it has at most f faulty
/// shards and decided anything on both chains, about what stands behind the parting, two texts have
/// one digest. What it decided need not be of one kind, nor of one blob. Nothing is said of the
/// committees behind it.
pub fn one_chain()
    ensures one { (seal : Seal) (seats : Seats) (fork here there : ℕ) (chain other : List Post)
        → IsPlain seal → AreAllowed seal chain → AreAllowed seal other
        → IsFork fork chain other → IsSound seal seats chain other
        → fork ≤ here → HasDecided seal seats chain here
        → fork ≤ there → HasDecided seal seats other there → IsBroken seal }
{}

/// Heads tell chains apart, and votes of posters who had seen nothing behind the parting do not:
/// what had been seen by then is on both chains, if it is on one.
pub fn heads()
    ensures same { (seal : Seal) (chain other : List Post) → IsPlain seal
        → AreAllowed seal chain → AreAllowed seal other
        → length chain ≡ length other → chain_head seal chain ≡ chain_head seal other
        → (chain ≡ other) ⊎ IsBroken seal }
    ensures early { (seal : Seal) (fork : ℕ) (chain other : List Post) (post : Post)
        → IsFork fork chain other → post.seen ≤ fork → IsSeenOn seal chain post
        → IsSeenOn seal other post }
{}
