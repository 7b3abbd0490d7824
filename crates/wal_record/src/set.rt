//! A set of shards.

ghost use Rattle.std.specs.Prelude.{◌≡◌, ℕ, ◌<◌, ◌≤◌, ◌||◌, false, nat_eq};
ghost use Rattle.wal_record.specs.Bits.{member};
ghost use Rattle.wal_record.specs.Record.{within};
ghost use Rattle.wal_ledger.specs.Ledger.{same_node};
ghost use Rattle.wal_ledger.specs.Shards.{count_below};

use wal_shape::node_of;

/// Shards of a committee, a bit for each.
#[derive(Clone, Copy, Debug)]
pub struct ShardSet {
    /// The bits of 64 shards to a word, from the lowest on.
    pub words: [u64; 16],
}

impl ShardSet {
    /// No shards.
    pub fn none() -> ShardSet
        ensures { (s : ℕ) → member result.words s ≡ false }
    {
        ShardSet { words: [0; 16] }
    }

    /// Whether a shard is in the set.
    pub fn has(&self, shard: u16) -> bool
        ensures { result ≡ member self.now.words shard }
    {
        match self.words.get(usize::from(shard / 64)) {
            Some(word) => (*word >> (shard % 64)) & 1 == 1,
            None => false,
        }
    }

    /// Puts a shard into the set.
    fn add(&mut self, shard: u16)
        requires { shard < 1024 }
        ensures { (s : ℕ)
            → member self.new.words s ≡ (member self.old.words s || nat_eq shard s) }
    {
        self.words[usize::from(shard / 64)] |= 1 << (shard % 64);
    }

    /// Puts all shards of a shard's node into the set.
    pub(crate) fn add_node(&mut self, owners: &[u16], n: u32, shard: u16)
        requires few { n ≤ 1000 }
        requires shard { shard < n }
        ensures { (s : ℕ) → member self.new.words s
            ≡ (member self.old.words s || within n (same_node owners.now shard) s) }
    {
        let node = node_of(owners, shard);
        for other in 0..n as u16 {
            if node == node_of(owners, other) {
                self.add(other);
            }
        }
    }

    /// How many shards below `n` are in the set.
    pub fn count(&self, n: u32) -> u32
        requires { n ≤ 1000 }
        ensures { result ≡ count_below n (member self.now.words) }
    {
        let mut count = 0;
        for shard in 0..n as u16 {
            if self.has(shard) {
                count += 1;
            }
        }
        count
    }
}
