//! Bytes that fill a chain of pages, the last one perhaps in part.

ghost use Rattle.std.specs.Prelude.{◌≡◌, ℕ, ◌+◌, ◌*◌, ◌<◌, ◌≤◌, ◌++◌, length, take, drop, count_by};
ghost use Rattle.wal_pool.specs.Pages.{is_free};
ghost use Rattle.wal_shape.specs.Shape.{most_bytes};
ghost use Rattle.wal_store.specs.Parts.{pages_for};
ghost use Rattle.wal_store.specs.inside.Chain.{Linked, links, joined, uses, taken_at, Adds, Frees};

use crate::chains::Chains;
use crate::holding::pages_for;
use wal_pool::PAGE_SIZE;

/// Stores the bytes, and answers the first page of their chain.
pub fn store(chains: &mut Chains, bytes: &[u8]) -> u32
    requires most { length bytes.now ≤ most_bytes }
    requires room { pages_for (length bytes.now) ≤ count_by is_free chains.old.states }
    ensures adds { Adds chains.old chains.new
        (links chains.new.next (pages_for (length bytes.now)) result) }
    ensures content { take (length bytes.now) (joined chains.new.states
        (links chains.new.next (pages_for (length bytes.now)) result)) ≡ bytes.now }
    ensures free { count_by is_free chains.new.states + pages_for (length bytes.now)
        ≡ count_by is_free chains.old.states }
{
    let mut left = pages_for(bytes.len() as u32);
    let mut first = 0;
    while left > 0 {
        left -= 1;
        first = chains.prepend(first, chunk_at(bytes, left as usize));
    }
    first
}

/// The bytes of one page.
fn chunk_at(bytes: &[u8], place: usize) -> &[u8]
    requires within { 4096 * place ≤ length bytes.now }
    requires most { length bytes.now ≤ most_bytes }
    ensures value { result.now ≡ take 4096 (drop (4096 * place) bytes.now) }
    ensures size { length result.now ≤ 4096 }
{
    let start = PAGE_SIZE * place;
    let end = bytes.len().min(start + PAGE_SIZE);
    &bytes[start..end]
}

/// Gives the pages of a chain back.
pub fn discard(chains: &mut Chains, first: u32, count: u32)
    requires { (k : ℕ) → uses k (links chains.old.next count first) ≤ taken_at chains.old.states k }
    ensures frees { Frees chains.old chains.new (links chains.old.next count first) }
    ensures free { count_by is_free chains.new.states
        ≡ count_by is_free chains.old.states + count }
{
    let mut left = count;
    let mut page = first;
    while left > 0 {
        left -= 1;
        page = chains.remove(page);
    }
}

/// Copies bytes that stand in a chain from a place on.
pub fn read(chains: &Chains, first: u32, count: u32, at: usize, out: &mut [u8])
    requires taken { (k : ℕ)
        → uses k (links chains.now.next count first) ≤ taken_at chains.now.states k }
    requires range { at + length out.old ≤ 4096 * count }
    ensures { out.new ≡ take (length out.old)
        (drop at (joined chains.now.states (links chains.now.next count first))) }
{
    if out.is_empty() {
        return;
    }
    let skipped = at / PAGE_SIZE;
    let mut page = first;
    for _ in 0..skipped {
        page = chains.after(page);
    }
    let mut left = count as usize - skipped;
    let mut offset = at % PAGE_SIZE;
    let mut done = 0;
    while done < out.len() {
        let size = (PAGE_SIZE - offset).min(out.len() - done);
        paste(out, done, &chains.bytes(page)[offset..offset + size]);
        done += size;
        offset = 0;
        page = chains.after(page);
        left -= 1;
    }
}

/// Writes a piece from a place on.
fn paste(out: &mut [u8], at: usize, piece: &[u8])
    requires { at + length piece.now ≤ length out.old }
    ensures written { take (at + length piece.now) out.new ≡ take at out.old ++ piece.now }
    ensures size { length out.new ≡ length out.old }
{
    out[at..at + piece.len()].copy_from_slice(piece);
}
