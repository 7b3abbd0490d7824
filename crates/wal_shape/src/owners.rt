//! Committees: the nodes that run the shards, and lists of shards.

ghost use Rattle.std.specs.Prelude.{◌≡◌, ℕ, ◌+◌, ◌<◌, ◌≤◌, ◌||◌, false, not, true, nat_eq, nat_lt};
ghost use Rattle.std.specs.Prelude.{length, slice_index_or};
ghost use Rattle.std.specs.List.{list_any, list_all};
ghost use Rattle.wal_shape.specs.Owners.{among, are_owners, has_neighbour, is_ascending, is_closed};
ghost use Rattle.wal_shape.specs.Owners.{is_committee, node_of};

use crate::lists::Shards;

/// The most shards of a committee.
const MOST: usize = 1000;

/// Whether the numbers ascend strictly and are below `n`.
pub fn is_ascending(shards: &Shards, n: u32) -> bool
    ensures { result ≡ is_ascending n shards.now }
{
    let mut low = 0;
    for shard in shards.as_slice() {
        let number = u32::from(*shard);
        if number < low || number >= n {
            return false;
        }
        low = number + 1;
    }
    true
}

/// Whether all numbers are below `n`.
fn all_below(numbers: &[u16], n: u32) -> bool
    ensures { result ≡ list_all (λ number. nat_lt number n) numbers.now }
{
    numbers.iter().all(|number| u32::from(*number) < n)
}

/// Whether these are the nodes of `n` shards, each below `n`.
fn are_owners(owners: &[u16], n: u32) -> bool
    ensures { result ≡ are_owners n owners.now }
{
    owners.len() == n as usize && all_below(owners, n)
}

/// A flag for each number below 1,000.
type Flags = [bool; MOST];

/// Raises the flag of a number, where it has one.
fn raise(flags: &mut Flags, number: u16)
    ensures { (k : ℕ) → k < 1000
        → slice_index_or flags.new k false ≡ (slice_index_or flags.old k false || nat_eq number k) }
{
    if usize::from(number) < MOST {
        flags[usize::from(number)] = true;
    }
}

/// No flag is up.
fn no_flags() -> Flags
    ensures { (k : ℕ) → slice_index_or result k false ≡ false }
{
    [false; MOST]
}

/// The flags of these numbers.
fn flags_of(numbers: &[u16]) -> Flags
    ensures { (k : ℕ) → k < 1000 → slice_index_or result k false ≡ among numbers.now k }
{
    let mut flags = no_flags();
    for number in numbers {
        raise(&mut flags, *number);
    }
    flags
}

/// The node that runs a shard, and 0 past the last one.
pub fn node_of(owners: &[u16], shard: u16) -> u16
    ensures { result ≡ node_of owners.now shard }
{
    match owners.get(usize::from(shard)) {
        Some(node) => *node,
        None => 0,
    }
}

/// The flags of the nodes that run these shards.
fn nodes_of(owners: &[u16], shards: &[u16]) -> Flags
    ensures { (k : ℕ) → k < 1000
        → slice_index_or result k false
        ≡ list_any (λ shard. nat_eq (node_of owners.now shard) k) shards.now }
{
    let mut flags = no_flags();
    for shard in shards {
        raise(&mut flags, node_of(owners, *shard));
    }
    flags
}

/// Whether a flag is up, and false where there is none.
fn is_raised(flags: &Flags, number: u16) -> bool
    ensures { result ≡ slice_index_or flags.now number false }
{
    match flags.get(usize::from(number)) {
        Some(flag) => *flag,
        None => false,
    }
}

/// Whether the list has the shard, if it has one of the same node.
fn has_if_needed(owners: &[u16], shards: &[u16], nodes: &Flags, flags: &Flags, shard: u16) -> bool
    requires below { (shard < 1000) × (node_of owners.now shard < 1000) }
    requires nodes { (k : ℕ) → k < 1000
        → slice_index_or nodes.now k false
        ≡ list_any (λ s. nat_eq (node_of owners.now s) k) shards.now }
    requires flags { (k : ℕ) → k < 1000 → slice_index_or flags.now k false ≡ among shards.now k }
    ensures { result ≡ (not (has_neighbour owners.now shards.now shard) || among shards.now shard) }
{
    !is_raised(nodes, node_of(owners, shard)) || is_raised(flags, shard)
}

/// Whether the list has, with a shard, every shard of the same node.
fn is_closed(owners: &[u16], shards: &[u16]) -> bool
    requires count { length owners.now ≤ 1000 }
    requires owners { list_all (λ node. nat_lt node 1000) owners.now ≡ true }
    ensures { result ≡ is_closed owners.now shards.now }
{
    let nodes = nodes_of(owners, shards);
    let flags = flags_of(shards);
    for shard in 0..owners.len() as u16 {
        if !has_if_needed(owners, shards, &nodes, &flags, shard) {
            return false;
        }
    }
    true
}

/// Whether these are the nodes of `n` shards, each below `n`, and faulty shards, which ascend
/// strictly and with a shard have every shard of the same node.
pub fn is_committee(owners: &Shards, faulty: &Shards, n: u32) -> bool
    requires { n ≤ 1000 }
    ensures { result ≡ is_committee n owners.now faulty.now }
{
    if !are_owners(owners.as_slice(), n) {
        return false;
    }
    is_ascending(faulty, n) && is_closed(owners.as_slice(), faulty.as_slice())
}
