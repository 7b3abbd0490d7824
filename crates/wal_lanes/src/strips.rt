//! The digests of pieces that are never whole in memory: a strip of bytes of each at a time.

ghost use Rattle.std.specs.Prelude.{◌≡◌, ℕ, ◌+◌, ◌-◌, ◌*◌, ◌%◌, ◌^◌, ◌<◌, ◌≤◌, ◌∷◌, List, OnOk};
ghost use Rattle.std.specs.Prelude.{Some, length, take, drop, slice_get, slice_index};
ghost use Rattle.sha2.specs.Sha256.{digest_bytes, final_hash, initial_hash_256, sha256};
ghost use Rattle.wal_lanes.specs.Strips.{AreDigestsOf, IsStrip};
ghost use Rattle.wal_lanes.specs.inside.Lanes.{lane};
ghost use Rattle.wal_lanes.specs.inside.Strips.{HasTaken, HaveTaken};

use crate::block::{State, initial};
use crate::bytes::{pieces, put_words};
use crate::pieces::lane_of;
use crate::texts::{after_last_blocks, after_whole_blocks};
use std::alloc::{AllocError, Global};

const LANES: usize = 8;

const DIGEST: usize = 32;

/// Pieces of equal length, of which strips can be made: an even number of bytes of all of them at
/// once.
pub trait Pieces {
    // What is a piece, at this place.
    ghost has: { Self → ℕ → List ℕ → Type 0 };

    ghost count: { Self → ℕ };

    ghost size: { Self → ℕ };

    /// Fills a strip with `long` bytes of each piece, from `from` on. Both are even.
    fn fill(&mut self, from: usize, long: usize, strip: &mut [u8])
        requires some { 2 ≤ long }
        requires even { long % 2 ≡ 0 }
        requires even_from { from % 2 ≡ 0 }
        requires within { from + long ≤ size self.old }
        requires room { length strip.old ≡ count self.old * long }
        ensures same { self.new ≡ self.old }
        ensures long { length strip.new ≡ length strip.old }
        ensures strip { IsStrip (has self.old) (count self.old) from long strip.new };

    // Each piece has so many bytes.
    ghost sized: { (self : Self) (k : ℕ) (piece : List ℕ) → has self k piece
        → length piece ≡ size self };
}

/// Eight texts of which some bytes were taken.
#[derive(Clone, Copy)]
struct Group {
    state: State,
    // The last byte of each that came: it begins the next block.
    last: [u8; 8],
}

// Nothing was taken yet: the prefix begins the first block.
fn begun(prefix: u8) -> Group
    ensures { (k : ℕ) → k < 8 → (piece : List ℕ) → HasTaken prefix piece 0 k result }
{
    Group {
        state: initial(),
        last: [prefix; 8],
    }
}

// The group after one strip more, of whole blocks.
fn taken(group: Group, strip: &[u8], long: usize) -> Group
    requires some { 64 ≤ long }
    requires whole { long % 64 ≡ 0 }
    requires small { long < 2 ^ 63 }
    requires room { length strip.now ≡ 8 * long }
    ensures { (k : ℕ) → k < 8 → (prefix seen : ℕ) (piece : List ℕ) → seen % 64 ≡ 0
        → seen + long ≤ length piece
        → take long (drop (k * long) strip.now) ≡ take long (drop seen piece)
        → HasTaken prefix piece seen k group → HasTaken prefix piece (seen + long) k result }
{
    Group {
        state: after_whole_blocks(group.state, &group.last, strip, long, LANES),
        last: last_bytes(strip, long),
    }
}

// The last bytes of eight pieces.
fn last_bytes(strip: &[u8], long: usize) -> [u8; 8]
    requires some { 1 ≤ long }
    requires room { length strip.now ≡ 8 * long }
    ensures { (k : ℕ) → k < 8
        → slice_index result k ≡ slice_index strip.now (k * long + (long - 1)) }
{
    [
        last_byte(strip, long, 0),
        last_byte(strip, long, 1),
        last_byte(strip, long, 2),
        last_byte(strip, long, 3),
        last_byte(strip, long, 4),
        last_byte(strip, long, 5),
        last_byte(strip, long, 6),
        last_byte(strip, long, 7),
    ]
}

#[inline(always)]
fn last_byte(strip: &[u8], long: usize, k: usize) -> u8
    requires few { k < 8 }
    requires some { 1 ≤ long }
    requires room { length strip.now ≡ 8 * long }
    ensures { result ≡ slice_index strip.now (k * long + (long - 1)) }
{
    strip[k * long + (long - 1)]
}

// The hash values of the texts, whose last bytes these are.
fn ended(group: Group, seen: usize, strip: &[u8], long: usize) -> State
    requires edge { seen % 64 ≡ 0 }
    requires small { seen + long < 2 ^ 63 }
    requires room { length strip.now ≡ 8 * long }
    ensures { (k : ℕ) → k < 8 → (prefix : ℕ) (piece : List ℕ) → length piece ≡ seen + long
        → take long (drop (k * long) strip.now) ≡ drop seen piece
        → HasTaken prefix piece seen k group
        → lane result k ≡ final_hash initial_hash_256 (prefix ∷ piece) }
{
    let whole = after_whole_blocks(group.state, &group.last, strip, long, LANES);
    after_last_blocks(whole, &group.last, seen, strip, long, LANES)
}

// Each group takes its part of a strip.
fn take_strip(groups: &mut [Group], strip: &[u8], long: usize)
    requires some { 64 ≤ long }
    requires whole { long % 64 ≡ 0 }
    requires small { long < 2 ^ 63 }
    requires room { length strip.now ≡ 8 * length groups.old * long }
    ensures long { length groups.new ≡ length groups.old }
    ensures each { (g k : ℕ) → k < 8 → (prefix seen : ℕ) (piece : List ℕ) → seen % 64 ≡ 0
        → seen + long ≤ length piece
        → take long (drop ((8 * g + k) * long) strip.now) ≡ take long (drop seen piece)
        → ((group : Group) → slice_get groups.old g ≡ Some group
        → HasTaken prefix piece seen k group)
        → (group : Group) → slice_get groups.new g ≡ Some group
        → HasTaken prefix piece (seen + long) k group }
{
    'each: for place in 0..groups.len() {
        groups[place] = taken(
            groups[place],
            pieces(strip, long, LANES * place, LANES),
            long,
        );
    }
}

// Writes the digests of the texts with these hash values, one after the other, from the place
// `first` on.
fn write_digests(state: &State, first: usize, lanes: usize, out: &mut [u8])
    requires few { lanes ≤ 8 }
    requires room { (first + lanes) * 32 ≤ length out.old }
    ensures long { length out.new ≡ length out.old }
    ensures before { (j : ℕ) → j < first
        → take 32 (drop (j * 32) out.new) ≡ take 32 (drop (j * 32) out.old) }
    ensures each { (k : ℕ) → k < lanes
        → take 32 (drop ((first + k) * 32) out.new) ≡ digest_bytes (lane state.now k) 8 }
{
    'each_lane: for k in 0..lanes {
        put_words(out, (first + k) * DIGEST, &lane_of(state, k));
    }
}

// Each group takes its part of the last strip, and the digests of all pieces are written.
fn end_strip(groups: &[Group], seen: usize, strip: &[u8], long: usize, count: usize, out: &mut [u8])
    requires edge { seen % 64 ≡ 0 }
    requires small { seen + long < 2 ^ 63 }
    requires groups { count ≤ 8 * length groups.now }
    requires used { 8 * length groups.now < count + 8 }
    requires room_in { length strip.now ≡ 8 * length groups.now * long }
    requires room { length out.old ≡ count * 32 }
    ensures long { length out.new ≡ length out.old }
    ensures each { (g k : ℕ) → k < 8 → 8 * g + k < count → (prefix : ℕ) (piece : List ℕ)
        → length piece ≡ seen + long
        → take long (drop ((8 * g + k) * long) strip.now) ≡ drop seen piece
        → ((group : Group) → slice_get groups.now g ≡ Some group
        → HasTaken prefix piece seen k group)
        → take 32 (drop ((8 * g + k) * 32) out.new) ≡ sha256 (prefix ∷ piece) }
{
    'each: for place in 0..groups.len() {
        let first = LANES * place;
        let state = ended(groups[place], seen, pieces(strip, long, first, LANES), long);
        write_digests(&state, first, lanes_left(first, count), out);
    }
}

// How many of the lanes of the group that begins at this place are in use.
fn lanes_left(first: usize, count: usize) -> usize
    requires { first < count }
    ensures few { result ≤ 8 }
    ensures within { first + result ≤ count }
    ensures all { (k : ℕ) → k < 8 → first + k < count → k < result }
{
    if count - first < LANES {
        count - first
    } else {
        LANES
    }
}

// Fills the front of a strip that has room for more pieces.
fn fill_front<P: Pieces>(pieces: &mut P, from: usize, long: usize, count: usize, strip: &mut [u8])
    requires count { P.count pieces.old ≡ count }
    requires some { 2 ≤ long }
    requires even { long % 2 ≡ 0 }
    requires even_from { from % 2 ≡ 0 }
    requires within { from + long ≤ P.size pieces.old }
    requires room { count * long ≤ length strip.old }
    ensures same { pieces.new ≡ pieces.old }
    ensures long { length strip.new ≡ length strip.old }
    ensures strip { IsStrip (P.has pieces.old) count from long strip.new }
{
    pieces.fill(from, long, &mut strip[..count * long]);
}

// Takes so many strips of whole blocks, from the pieces' first bytes on.
fn take_strips<P: Pieces>(
    pieces: &mut P,
    groups: &mut [Group],
    strip: &mut [u8],
    count: usize,
    width: usize,
    turns: usize,
)
    requires count { P.count pieces.old ≡ count }
    requires some { 64 ≤ width }
    requires whole { width % 64 ≡ 0 }
    requires small { turns * width < 2 ^ 63 }
    requires within { turns * width ≤ P.size pieces.old }
    requires groups { count ≤ 8 * length groups.old }
    requires room { length strip.old ≡ 8 * length groups.old * width }
    ensures same { pieces.new ≡ pieces.old }
    ensures long { length groups.new ≡ length groups.old }
    ensures room { length strip.new ≡ length strip.old }
    ensures taken { (prefix : ℕ) → HaveTaken prefix (P.has pieces.old) count 0 groups.old
        → HaveTaken prefix (P.has pieces.old) count (turns * width) groups.new }
{
    'each: for turn in 0..turns {
        fill_front(pieces, turn * width, width, count, strip);
        take_strip(groups, strip, width);
    }
}

// Takes the last strip, and writes the digests.
fn take_last<P: Pieces>(
    pieces: &mut P,
    groups: &[Group],
    strip: &mut [u8],
    count: usize,
    seen: usize,
    long: usize,
    out: &mut [u8],
)
    requires count { P.count pieces.old ≡ count }
    requires some { 2 ≤ long }
    requires even { long % 2 ≡ 0 }
    requires edge { seen % 64 ≡ 0 }
    requires all { seen + long ≡ P.size pieces.old }
    requires small { seen + long < 2 ^ 63 }
    requires groups { count ≤ 8 * length groups.now }
    requires used { 8 * length groups.now < count + 8 }
    requires room_in { 8 * length groups.now * long ≤ length strip.old }
    requires room { length out.old ≡ count * 32 }
    ensures same { pieces.new ≡ pieces.old }
    ensures digests { (prefix : ℕ) → HaveTaken prefix (P.has pieces.old) count seen groups.now
        → AreDigestsOf sha256 prefix (P.has pieces.old) count out.new }
{
    fill_front(pieces, seen, long, count, strip);
    end_strip(
        groups,
        seen,
        &strip[..LANES * groups.len() * long],
        long,
        count,
        out,
    );
}

// How many strips there are before the last one.
fn strips_before(size: usize, width: usize) -> usize
    requires some { 1 ≤ size }
    requires wide { 64 ≤ width }
    requires blocks { width % 64 ≡ 0 }
    ensures edge { result * width % 64 ≡ 0 }
    ensures before { result * width < size }
    ensures last { size ≤ result * width + width }
{
    (size - 1) / width
}

/// The SHA-256 digests of pieces, each behind a prefix byte, made a strip of all of them at a time:
/// `width` bytes of each.
///
/// Takes memory for one strip, and for the hash values. If it is not there, nothing is said of
/// `out`.
pub fn digest_strips<P: Pieces>(
    alloc: Global,
    prefix: u8,
    pieces: &mut P,
    count: usize,
    size: usize,
    width: usize,
    out: &mut [u8],
) -> Result<(), AllocError>
    requires count { P.count pieces.old ≡ count }
    requires size { P.size pieces.old ≡ size }
    requires some { 1 ≤ count }
    requires some_bytes { 2 ≤ size }
    requires even { size % 2 ≡ 0 }
    requires blocks { width % 64 ≡ 0 }
    requires wide { 64 ≤ width }
    requires fits { count * width < 2 ^ 31 }
    requires small { size < 2 ^ 31 }
    requires room { length out.old ≡ count * 32 }
    ensures same { pieces.new ≡ pieces.old }
    ensures digests { OnOk result (AreDigestsOf sha256 prefix (P.has pieces.old) count out.new) }
{
    let some = (count + (LANES - 1)) / LANES;
    let mut groups = vec![in alloc; begun(prefix); some]?;
    let mut strip = vec![in alloc; 0u8; LANES * some * width]?;
    let turns = strips_before(size, width);
    take_strips(pieces, &mut groups, &mut strip, count, width, turns);
    let seen = turns * width;
    take_last(pieces, &groups, &mut strip, count, seen, size - seen, out);
    Ok(())
}
