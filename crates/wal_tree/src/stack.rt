ghost use Rattle.std.specs.Prelude.{◌≡◌, ℕ, ◌+◌, ◌≤◌, ◌<◌, [], ◌++◌, List, Option, length, take};
ghost use Rattle.wal_tree.specs.Tree.{pair_up, root_of};
ghost use Rattle.wal_tree.specs.Stack.{climb, entries, pushed};
ghost use Rattle.wal_tree.specs.inside.Stack.{weight};

use crate::hash::{Digest, Hash32};
use crate::node::{EMPTY, join};
use std::marker::Model;

// A tree of at most 1000 leaves has at most this many levels with a pending entry.
const LEVELS: usize = 10;

/// The pending entries of a pass over the leaves, one place for each level, lowest first.
#[derive(Drop)]
pub struct Stack {
    levels: [Option<Digest>; LEVELS],
    height: usize,
}

// Clauses see the places in use.
impl Model for Stack {
    ghost Value = { List (Option (List ℕ)) };

    ghost view = { λ s. take s.height s.levels };

    ghost invariant = { λ s. s.height ≤ 10 };
}

impl Stack {
    /// No leaf yet.
    pub fn new() -> Stack
        ensures { result ≡ [] }
    {
        Stack {
            levels: [None; LEVELS],
            height: 0,
        }
    }

    /// Takes the digest of the next leaf.
    pub fn push<H: Hash32>(&mut self, entry: Digest)
        requires { length (pushed H.digest self.old entry) ≤ 10 }
        ensures { self.new ≡ pushed H.digest self.old entry }
    {
        self.height = carry::<H>(&mut self.levels, self.height, entry);
    }

    /// The root over the leaves that were taken, or the empty entry if there was none.
    pub fn root<H: Hash32>(&self) -> Digest
        ensures { result ≡ climb H.digest self.now [] }
    {
        fold_levels::<H>(&self.levels, self.height)
    }
}

// Moves the entry up while its place is taken, and says how many places are then in use.
fn carry<H: Hash32>(levels: &mut [Option<Digest>; LEVELS], height: usize, entry: Digest) -> usize
    requires fits { height ≤ 10 }
    requires room { length (pushed H.digest (take height levels.old) entry) ≤ 10 }
    ensures fits { result ≤ 10 }
    ensures pushed { take result levels.new ≡ pushed H.digest (take height levels.old) entry }
{
    let mut entry = entry;
    for level in 0..height {
        match levels[level] {
            Some(left) => {
                levels[level] = None;
                entry = join::<H>(&left, &entry);
            }
            None => {
                levels[level] = Some(entry);
                return height;
            }
        }
    }
    levels[height] = Some(entry);
    height + 1
}

// The root over the leaves for which the first `height` places stand.
fn fold_levels<H: Hash32>(levels: &[Option<Digest>; LEVELS], height: usize) -> Digest
    requires { height ≤ 10 }
    ensures { result ≡ climb H.digest (take height levels.now) [] }
{
    let mut pending = None;
    for level in 0..height {
        let entry = levels[level];
        if level + 1 == height {
            return last::<H>(entry, pending);
        }
        pending = above::<H>(entry, pending);
    }
    EMPTY
}

// The entry of the level above, where these are the last entries of a level.
pub(crate) fn above<H: Hash32>(entry: Option<Digest>, pending: Option<Digest>) -> Option<Digest>
    ensures { entries result ≡ pair_up H.digest (entries entry ++ entries pending) }
{
    match (entry, pending) {
        (Some(left), Some(right)) => Some(join::<H>(&left, &right)),
        (Some(last), None) | (None, Some(last)) => Some(join::<H>(&last, &EMPTY)),
        (None, None) => None,
    }
}

// The root over these entries.
#[tactic(auto, unfolding(crate::specs::Tree::root_of))]
pub(crate) fn last<H: Hash32>(entry: Option<Digest>, pending: Option<Digest>) -> Digest
    ensures { result ≡ root_of H.digest (entries entry ++ entries pending) }
{
    match (entry, pending) {
        (Some(left), Some(right)) => join::<H>(&left, &right),
        (Some(only), None) | (None, Some(only)) => only,
        (None, None) => EMPTY,
    }
}
