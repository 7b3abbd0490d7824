//! The functions of SHA-256 on words (FIPS 180-4, section 4.1.2), on eight words at a time.

ghost use Rattle.std.specs.Prelude.{◌≡◌, ◌+◌, ◌*◌, ◌<◌, ◌≤◌, length, slice_index};
ghost use Rattle.std.specs.Int.{rotate_right, w32};
ghost use Rattle.sha2.specs.Sha256.{add32, big_sigma0, big_sigma1, ch, maj, small_sigma0};
ghost use Rattle.sha2.specs.Sha256.{small_sigma1, word_at};
ghost use Rattle.wal_lanes.specs.inside.Lanes.{HasLanes};

use std::simd::prelude::*;

/// The word in every lane.
#[inline(always)]
pub(crate) fn splat(word: u32) -> u32x8
    ensures { HasLanes 8 result (λ _. word) }
{
    u32x8::splat(word)
}

/// The sum lane by lane, without the carry.
#[inline(always)]
pub(crate) fn sum(x: u32x8, y: u32x8) -> u32x8
    ensures { HasLanes 8 result (λ k. add32 (slice_index x k) (slice_index y k)) }
{
    x + y
}

#[inline(always)]
fn rotated(x: u32x8, by: u32) -> u32x8
    requires some { 0 < by }
    requires below { by < 32 }
    ensures { HasLanes 8 result (λ k. rotate_right w32 (slice_index x k) by) }
{
    (x >> u32x8::splat(by)) | (x << u32x8::splat(32 - by))
}

#[inline(always)]
pub(crate) fn big_sigma0(x: u32x8) -> u32x8
    ensures { HasLanes 8 result (λ k. big_sigma0 (slice_index x k)) }
{
    rotated(x, 2) ^ rotated(x, 13) ^ rotated(x, 22)
}

#[inline(always)]
pub(crate) fn big_sigma1(x: u32x8) -> u32x8
    ensures { HasLanes 8 result (λ k. big_sigma1 (slice_index x k)) }
{
    rotated(x, 6) ^ rotated(x, 11) ^ rotated(x, 25)
}

#[inline(always)]
pub(crate) fn small_sigma0(x: u32x8) -> u32x8
    ensures { HasLanes 8 result (λ k. small_sigma0 (slice_index x k)) }
{
    rotated(x, 7) ^ rotated(x, 18) ^ (x >> u32x8::splat(3))
}

#[inline(always)]
pub(crate) fn small_sigma1(x: u32x8) -> u32x8
    ensures { HasLanes 8 result (λ k. small_sigma1 (slice_index x k)) }
{
    rotated(x, 17) ^ rotated(x, 19) ^ (x >> u32x8::splat(10))
}

// One operation fewer than the standard's form.
#[inline(always)]
pub(crate) fn ch(x: u32x8, y: u32x8, z: u32x8) -> u32x8
    ensures { HasLanes 8 result (λ k. ch (slice_index x k) (slice_index y k) (slice_index z k)) }
{
    z ^ (x & (y ^ z))
}

// One round's `x ^ y` is the next round's `y ^ z`, so it is computed once.
#[inline(always)]
pub(crate) fn maj(x: u32x8, y: u32x8, z: u32x8) -> u32x8
    ensures { HasLanes 8 result (λ k. maj (slice_index x k) (slice_index y k) (slice_index z k)) }
{
    y ^ ((x ^ y) & (y ^ z))
}

// The word at this place, high byte first.
#[inline(always)]
fn word_at(bytes: &[u8], at: usize) -> u32
    requires { at + 4 ≤ length bytes.now }
    ensures { result ≡ word_at bytes.now at }
{
    u32::from_be_bytes([bytes[at], bytes[at + 1], bytes[at + 2], bytes[at + 3]])
}

/// The words at eight places that are `stride` bytes apart, the first at `at`.
#[inline(always)]
pub(crate) fn load(bytes: &[u8], at: usize, stride: usize) -> u32x8
    requires { at + 7 * stride + 4 ≤ length bytes.now }
    ensures { HasLanes 8 result (λ k. word_at bytes.now (at + k * stride)) }
{
    u32x8::from_array([
        word_at(bytes, at),
        word_at(bytes, at + stride),
        word_at(bytes, at + 2 * stride),
        word_at(bytes, at + 3 * stride),
        word_at(bytes, at + 4 * stride),
        word_at(bytes, at + 5 * stride),
        word_at(bytes, at + 6 * stride),
        word_at(bytes, at + 7 * stride),
    ])
}
