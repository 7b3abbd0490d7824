//! The digests of the pieces of a content, written one after the other.

ghost use Rattle.std.specs.Prelude.{◌≡◌, ℕ, ◌+◌, ◌*◌, ◌/◌, ◌<◌, ◌≤◌, ◌∷◌, length, slice_index};
ghost use Rattle.sha2.specs.Sha256.{sha256};
ghost use Rattle.wal_lanes.specs.inside.Lanes.{lane};
ghost use Rattle.wal_lanes.specs.Pieces.{AreDigests};

use crate::block::State;
use crate::bytes::{pieces, put, put_words};
use crate::texts::hash_lanes;
use sha2::{Digest, Sha256};
use std::simd::prelude::*;

const DIGEST: usize = 32;

/// Writes the digests of all pieces, one after the other.
pub(crate) fn write_each(prefix: u8, content: &[u8], size: usize, count: usize, out: &mut [u8])
    requires whole { length content.now ≡ count * size }
    requires count { count ≡ length content.now / size }
    requires room { length out.old ≡ count * 32 }
    ensures { AreDigests sha256 prefix size content.now count out.new }
{
    'each: for place in 0..count {
        let digest = digest_of(prefix, pieces(content, size, place, 1));
        put(out, place * DIGEST, &digest);
    }
}

// The digest of the prefix and the piece.
fn digest_of(prefix: u8, piece: &[u8]) -> [u8; 32]
    ensures digest { result ≡ sha256 (prefix ∷ piece.now) }
    ensures long { length result ≡ 32 }
{
    let mut hasher = Sha256::new();
    hasher.update(&[prefix]);
    hasher.update(piece);
    hasher.finalize()
}

/// Writes the digests of the pieces from the place `first` on, at most eight, one in each lane.
pub(crate) fn write_lanes(
    prefix: u8,
    content: &[u8],
    size: usize,
    first: usize,
    lanes: usize,
    out: &mut [u8],
)
    requires some { 1 ≤ lanes }
    requires few { lanes ≤ 8 }
    requires whole { (first + lanes) * size ≤ length content.now }
    requires room { (first + lanes) * 32 ≤ length out.old }
    ensures { (done : ℕ) → first ≤ done → AreDigests sha256 prefix size content.now done out.old
        → AreDigests sha256 prefix size content.now (first + lanes) out.new }
{
    let state = hash_lanes(prefix, pieces(content, size, first, lanes), size, lanes);
    'each_lane: for k in 0..lanes {
        put_words(out, (first + k) * DIGEST, &lane_of(&state, k));
    }
}

// The words in this lane.
pub(crate) fn lane_of(state: &State, k: usize) -> [u32; 8]
    requires { k < 8 }
    ensures { result ≡ lane state.now k }
{
    [
        word(state.a, k),
        word(state.b, k),
        word(state.c, k),
        word(state.d, k),
        word(state.e, k),
        word(state.f, k),
        word(state.g, k),
        word(state.h, k),
    ]
}

#[inline(always)]
fn word(words: u32x8, k: usize) -> u32
    requires { k < 8 }
    ensures { result ≡ slice_index words k }
{
    words[k]
}
