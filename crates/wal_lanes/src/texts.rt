//! The digests of at most eight texts: their whole blocks, and the last ones with the padding (FIPS
//! 180-4, section 5.1.1). Of each text a byte is given, and the piece that follows it.

ghost use Rattle.std.specs.Prelude.{◌≡◌, ℕ, ◌+◌, ◌*◌, ◌/◌, ◌%◌, ◌^◌, ◌<◌, ◌≤◌, ◌∷◌, List, length};
ghost use Rattle.std.specs.Prelude.{take, drop, replicate, slice_index};
ghost use Rattle.sha2.specs.Sha256.{compress, digest_bytes, final_hash, hash_after};
ghost use Rattle.sha2.specs.Sha256.{initial_hash_256, padded_message, sha256};
ghost use Rattle.wal_lanes.specs.inside.Lanes.{lane, last_blocks, put_at, tail_length};
ghost use Rattle.wal_lanes.specs.Pieces.{text};

use crate::block::{State, compress, initial};
use crate::bytes::{part, put};

const BLOCK: usize = 64;

/// The hash values of the texts whose pieces these are, `size` bytes each, in the first lanes.
pub(crate) fn hash_lanes(prefix: u8, pieces: &[u8], size: usize, lanes: usize) -> State
    requires small { size < 2 ^ 63 }
    requires few { lanes ≤ 8 }
    requires long { length pieces.now ≡ lanes * size }
    ensures { (k : ℕ) → k < lanes
        → digest_bytes (lane result k) 8 ≡ sha256 (text prefix size pieces.now k) }
{
    let firsts = [prefix; 8];
    let whole = after_whole_blocks(initial(), &firsts, pieces, size, lanes);
    after_last_blocks(whole, &firsts, 0, pieces, size, lanes)
}

/// The hash values after the blocks that hold no padding: of each text a byte and a piece.
pub(crate) fn after_whole_blocks(
    state: State,
    firsts: &[u8; 8],
    pieces: &[u8],
    size: usize,
    lanes: usize,
) -> State
    requires small { size < 2 ^ 63 }
    requires few { lanes ≤ 8 }
    requires long { length pieces.now ≡ lanes * size }
    ensures { (k : ℕ) → k < lanes
        → lane result k ≡ hash_after (lane state k)
        (text (slice_index firsts.now k) size pieces.now k) ((size + 1) / 64) }
{
    let blocks = (size + 1) / BLOCK;
    if blocks == 0 {
        return state;
    }
    let mut after = after_first_block(state, firsts, pieces, size, lanes);
    'middle: for block in 1..blocks {
        after = after_block(after, pieces, size, lanes, BLOCK * block - 1);
    }
    after
}

// The hash values after the first blocks, each of which holds a text's byte and 63 bytes of its
// piece.
fn after_first_block(
    state: State,
    firsts: &[u8; 8],
    pieces: &[u8],
    size: usize,
    lanes: usize,
) -> State
    requires large { 63 ≤ size }
    requires few { lanes ≤ 8 }
    requires long { length pieces.now ≡ lanes * size }
    ensures { (k : ℕ) → k < lanes
        → lane result k
        ≡ hash_after (lane state k) (text (slice_index firsts.now k) size pieces.now k) 1 }
{
    let mut fronts = [0; 512];
    'each_first: for k in 0..lanes {
        put_first(
            &mut fronts,
            k * BLOCK,
            firsts[k],
            part(pieces, k * size, size),
        );
    }
    compress(state, &fronts, 0, BLOCK)
}

// Puts the first block of a text in place of the bytes from `at` on.
fn put_first(fronts: &mut [u8], at: usize, first: u8, piece: &[u8])
    requires long { 63 ≤ length piece.now }
    requires room { at + 64 ≤ length fronts.old }
    ensures { fronts.new ≡ put_at at fronts.old (take 64 (first ∷ piece.now)) }
{
    put(fronts, at, &[first]);
    put(fronts, at + 1, part(piece, 0, BLOCK - 1));
}

// The hash values after one block more, which begins at this place of each piece.
fn after_block(state: State, pieces: &[u8], size: usize, lanes: usize, place: usize) -> State
    requires few { lanes ≤ 8 }
    requires long { length pieces.now ≡ lanes * size }
    requires within { place + 64 ≤ size }
    ensures { (k : ℕ) → k < lanes
        → lane result k ≡ compress (lane state k) (take 64 (drop (place + k * size) pieces.now)) }
{
    if lanes == 8 {
        return compress(state, pieces, place, size);
    }
    let mut copies = [0; 512];
    'each_block: for k in 0..lanes {
        put(
            &mut copies,
            k * BLOCK,
            part(pieces, k * size + place, BLOCK),
        );
    }
    compress(state, &copies, 0, BLOCK)
}

/// The hash values of the texts, from those after their whole blocks. `seen` bytes came before:
/// whole blocks.
pub(crate) fn after_last_blocks(
    state: State,
    firsts: &[u8; 8],
    seen: usize,
    pieces: &[u8],
    size: usize,
    lanes: usize,
) -> State
    requires edge { seen % 64 ≡ 0 }
    requires small { seen + size < 2 ^ 63 }
    requires few { lanes ≤ 8 }
    requires long { length pieces.now ≡ lanes * size }
    ensures { (k : ℕ) → k < lanes → (m : List ℕ)
        → drop seen m ≡ text (slice_index firsts.now k) size pieces.now k
        → lane state k ≡ hash_after initial_hash_256 (padded_message m) (length m / 64)
        → lane result k ≡ final_hash initial_hash_256 m }
{
    let long = tail_length(size);
    let mut tails = [0; 1024];
    'each_tail: for k in 0..lanes {
        put_tail(
            &mut tails,
            k * long,
            seen,
            firsts[k],
            part(pieces, k * size, size),
        );
    }
    let after = compress(state, &tails, 0, long);
    if long == BLOCK {
        return after;
    }
    compress(after, &tails, BLOCK, long)
}

// How many bytes the last one or two blocks of a text have, whose piece has `size` bytes.
fn tail_length(size: usize) -> usize
    requires { size < 2 ^ 63 }
    ensures { result ≡ tail_length (size + 1) }
{
    let used = (size + 1) % BLOCK;
    used + (119 - used) % BLOCK + 9
}

// Puts the last blocks of a padded text in place of the bytes from `at` on. `seen` bytes of it came
// before.
fn put_tail(tails: &mut [u8], at: usize, seen: usize, first: u8, piece: &[u8])
    requires edge { seen % 64 ≡ 0 }
    requires small { seen + length piece.now < 2 ^ 63 }
    requires room { at + tail_length (length piece.now + 1) ≤ length tails.old }
    ensures { tails.new ≡ put_at at tails.old (last_blocks seen (first ∷ piece.now)) }
{
    let length = seen + piece.len() + 1;
    let used = length % BLOCK;
    let zeros = (119 - used) % BLOCK;
    put_rest(tails, at, first, piece);
    put(tails, at + used, padding(zeros));
    let bits = (length as u64).wrapping_mul(8);
    put(tails, at + used + zeros + 1, &bits.to_be_bytes());
}

// Puts what follows the whole blocks of a text in place of the bytes from `at` on.
fn put_rest(tails: &mut [u8], at: usize, first: u8, piece: &[u8])
    requires { at + (length piece.now + 1) % 64 ≤ length tails.old }
    ensures { tails.new
        ≡ put_at at tails.old (drop ((length piece.now + 1) / 64 * 64) (first ∷ piece.now)) }
{
    let whole = (piece.len() + 1) / BLOCK * BLOCK;
    if whole > 0 {
        put(tails, at, part(piece, whole - 1, piece.len() + 1 - whole));
        return;
    }
    put(tails, at, &[first]);
    put(tails, at + 1, piece);
}

// The padding's first bytes: a bit 1, then zeros.
const PADDING: [u8; 64] = [
    0x80, 0, 0, 0, 0, 0, 0, 0, 0, 0, 0, 0, 0, 0, 0, 0, 0, 0, 0, 0, 0, 0, 0, 0, 0, 0, 0, 0, 0, 0, 0,
    0, 0, 0, 0, 0, 0, 0, 0, 0, 0, 0, 0, 0, 0, 0, 0, 0, 0, 0, 0, 0, 0, 0, 0, 0, 0, 0, 0, 0, 0, 0, 0,
    0,
];

// The bit 1 and this many bytes of zeros.
fn padding(zeros: usize) -> &'static [u8]
    requires { zeros < 64 }
    ensures { result.now ≡ 0x80 ∷ replicate zeros 0 }
{
    &PADDING[..zeros + 1]
}
