//! Vectors of 32 bytes.

ghost use Rattle.std.specs.Prelude.{◌≡◌, ℕ, ◌+◌, ◌*◌, ◌^◌, ◌/◌, ◌%◌, ◌<◌, ◌≤◌, List, length};
ghost use Rattle.std.specs.Prelude.{slice_index, bit_xor};
ghost use Rattle.wal_kernel.specs.inside.Region.{IsSumBelow};
ghost use Rattle.wal_kernel.specs.inside.Lanes.{HasLanes, IsTable, high_of_sixteenfold};
ghost use Rattle.wal_kernel.specs.inside.Lanes.{low_of_sixteenfold, nibble_sum, word_of_lane};

use std::simd::prelude::*;

/// The bytes from `at` on.
#[inline(always)]
pub(crate) fn load(bytes: &[u8], at: usize) -> u8x32
    requires { at + 32 ≤ length bytes.now }
    ensures { HasLanes 32 result (λ k. slice_index bytes.now (at + k)) }
{
    u8x32::from_slice(&bytes[at..])
}

/// The high and the low bytes of 32 words.
///
/// Each half of a vector keeps the bytes that come from this half of a load: across the halves
/// shuffles are slow.
#[inline(always)]
pub(crate) fn split(bytes: &[u8], at: usize) -> (u8x32, u8x32)
    requires { at + 64 ≤ length bytes.now }
    ensures high { HasLanes 32 result.0 (λ k. slice_index bytes.now (at + 2 * word_of_lane k)) }
    ensures low { HasLanes 32 result.1 (λ k. slice_index bytes.now (at + 2 * word_of_lane k + 1)) }
{
    high_and_low(load(bytes, at), load(bytes, at + 32))
}

/// The high and the low bytes of the words in two vectors.
#[inline(always)]
fn high_and_low(first: u8x32, second: u8x32) -> (u8x32, u8x32)
    ensures high { (bytes : List ℕ) (at : ℕ) → HasLanes 32 first (λ k. slice_index bytes (at + k))
        → HasLanes 32 second (λ k. slice_index bytes (at + 32 + k))
        → HasLanes 32 result.0 (λ k. slice_index bytes (at + 2 * word_of_lane k)) }
    ensures low { (bytes : List ℕ) (at : ℕ) → HasLanes 32 first (λ k. slice_index bytes (at + k))
        → HasLanes 32 second (λ k. slice_index bytes (at + 32 + k))
        → HasLanes 32 result.1 (λ k. slice_index bytes (at + 2 * word_of_lane k + 1)) }
{
    let high = first.shuffle(
        second,
        [
            0, 2, 4, 6, 8, 10, 12, 14, 32, 34, 36, 38, 40, 42, 44, 46, 16, 18, 20, 22, 24, 26, 28,
            30, 48, 50, 52, 54, 56, 58, 60, 62,
        ],
    );
    let low = first.shuffle(
        second,
        [
            1, 3, 5, 7, 9, 11, 13, 15, 33, 35, 37, 39, 41, 43, 45, 47, 17, 19, 21, 23, 25, 27, 29,
            31, 49, 51, 53, 55, 57, 59, 61, 63,
        ],
    );
    (high, low)
}

/// Adds the lanes to the bytes from `at` on.
#[inline(always)]
pub(crate) fn add(dst: &mut [u8], at: usize, lanes: u8x32)
    requires { at + 32 ≤ length dst.old }
    ensures { (f : ℕ → ℕ) (old : List ℕ) → HasLanes 32 lanes (λ k. f (at + k))
        → IsSumBelow f old at dst.old → IsSumBelow f old (at + 32) dst.new }
{
    (load(dst, at) ^ lanes).copy_to_slice(&mut dst[at..]);
}

/// Adds 32 words, given by their high and low bytes, to the bytes from `at` on.
#[inline(always)]
pub(crate) fn add_merged(dst: &mut [u8], at: usize, high: u8x32, low: u8x32)
    requires { at + 64 ≤ length dst.old }
    ensures { (f : ℕ → ℕ) (old : List ℕ) → HasLanes 32 high (λ k. f (at + 2 * word_of_lane k))
        → HasLanes 32 low (λ k. f (at + 2 * word_of_lane k + 1)) → IsSumBelow f old at dst.old
        → IsSumBelow f old (at + 64) dst.new }
{
    let (first, second) = merged(high, low);
    add(dst, at, first);
    add(dst, at + 32, second);
}

/// The words of which the high and the low bytes are given, as they stand in a load.
#[inline(always)]
fn merged(high: u8x32, low: u8x32) -> (u8x32, u8x32)
    ensures first { (f : ℕ → ℕ) (at : ℕ) → HasLanes 32 high (λ k. f (at + 2 * word_of_lane k))
        → HasLanes 32 low (λ k. f (at + 2 * word_of_lane k + 1))
        → HasLanes 32 result.0 (λ k. f (at + k)) }
    ensures second { (f : ℕ → ℕ) (at : ℕ) → HasLanes 32 high (λ k. f (at + 2 * word_of_lane k))
        → HasLanes 32 low (λ k. f (at + 2 * word_of_lane k + 1))
        → HasLanes 32 result.1 (λ k. f (at + 32 + k)) }
{
    let first = high.shuffle(
        low,
        [
            0, 32, 1, 33, 2, 34, 3, 35, 4, 36, 5, 37, 6, 38, 7, 39, 16, 48, 17, 49, 18, 50, 19, 51,
            20, 52, 21, 53, 22, 54, 23, 55,
        ],
    );
    let second = high.shuffle(
        low,
        [
            8, 40, 9, 41, 10, 42, 11, 43, 12, 44, 13, 45, 14, 46, 15, 47, 24, 56, 25, 57, 26, 58,
            27, 59, 28, 60, 29, 61, 30, 62, 31, 63,
        ],
    );
    (first, second)
}

/// Lane k is the sum of the values at the bits of k, the first at the lowest bit.
#[inline(always)]
pub(crate) fn spanned(at_1: u8, at_2: u8, at_4: u8, at_8: u8) -> u8x32
    ensures { HasLanes 32 result
        (λ k. bit_xor (k % 2 * at_1)
        (bit_xor (k / 2 % 2 * at_2) (bit_xor (k / 4 % 2 * at_4) (k / 8 % 2 * at_8)))) }
{
    let lanes_1 = [
        0, 255, 0, 255, 0, 255, 0, 255, 0, 255, 0, 255, 0, 255, 0, 255, 0, 255, 0, 255, 0, 255, 0,
        255, 0, 255, 0, 255, 0, 255, 0, 255,
    ];
    let lanes_2 = [
        0, 0, 255, 255, 0, 0, 255, 255, 0, 0, 255, 255, 0, 0, 255, 255, 0, 0, 255, 255, 0, 0, 255,
        255, 0, 0, 255, 255, 0, 0, 255, 255,
    ];
    let lanes_4 = [
        0, 0, 0, 0, 255, 255, 255, 255, 0, 0, 0, 0, 255, 255, 255, 255, 0, 0, 0, 0, 255, 255, 255,
        255, 0, 0, 0, 0, 255, 255, 255, 255,
    ];
    let lanes_8 = [
        0, 0, 0, 0, 0, 0, 0, 0, 255, 255, 255, 255, 255, 255, 255, 255, 0, 0, 0, 0, 0, 0, 0, 0,
        255, 255, 255, 255, 255, 255, 255, 255,
    ];
    let first = u8x32::splat(at_1) & u8x32::from_array(lanes_1);
    let second = u8x32::splat(at_2) & u8x32::from_array(lanes_2);
    let third = u8x32::splat(at_4) & u8x32::from_array(lanes_4);
    let fourth = u8x32::splat(at_8) & u8x32::from_array(lanes_8);
    sum(first, sum(second, sum(third, fourth)))
}

/// The high bytes of x^4 times the words with these bytes.
#[inline(always)]
pub(crate) fn high_times_sixteen(high: u8x32, low: u8x32) -> u8x32
    ensures { HasLanes 32 result
        (λ k. high_of_sixteenfold (slice_index high k) (slice_index low k)) }
{
    let top = high_nibbles(high);
    sum(
        times_power(high, 4),
        sum(high_nibbles(low), times_power(top, 4)),
    )
}

/// The low bytes of x^4 times the words with these bytes.
#[inline(always)]
pub(crate) fn low_times_sixteen(high: u8x32, low: u8x32) -> u8x32
    ensures { HasLanes 32 result
        (λ k. low_of_sixteenfold (slice_index high k) (slice_index low k)) }
{
    let top = high_nibbles(high);
    sum(
        times_power(low, 4),
        sum(times_power(top, 3), sum(times_power(top, 1), top)),
    )
}

/// The high four bits of each lane.
#[inline(always)]
fn high_nibbles(lanes: u8x32) -> u8x32
    ensures { HasLanes 32 result (λ k. slice_index lanes k / 16) }
{
    lanes >> u8x32::splat(4)
}

/// Each lane by a power of x, without what goes past its eight bits.
#[inline(always)]
fn times_power(lanes: u8x32, power: u8) -> u8x32
    requires { power < 8 }
    ensures { HasLanes 32 result (λ k. slice_index lanes k * 2 ^ power % 256) }
{
    lanes << u8x32::splat(power)
}

/// The entry of the table at the high four bits of each lane.
#[inline(always)]
fn by_high(table: u8x32, lanes: u8x32) -> u8x32
    ensures { (f : ℕ → ℕ) → IsTable f table
        → HasLanes 32 result (λ k. f (slice_index lanes k / 16)) }
{
    table.swizzle_dyn_within::<16>(lanes >> u8x32::splat(4))
}

/// The entry of the table at the low four bits of each lane.
#[inline(always)]
fn by_low(table: u8x32, lanes: u8x32) -> u8x32
    ensures { (f : ℕ → ℕ) → IsTable f table
        → HasLanes 32 result (λ k. f (slice_index lanes k % 16)) }
{
    table.swizzle_dyn_within::<16>(lanes & u8x32::splat(15))
}

/// The sum lane by lane.
#[inline(always)]
fn sum(a: u8x32, b: u8x32) -> u8x32
    ensures { HasLanes 32 result (λ k. bit_xor (slice_index a k) (slice_index b k)) }
{
    a ^ b
}

/// The sum of the tables' entries at the four nibbles of each word, the first table's at the
/// highest.
#[inline(always)]
pub(crate) fn looked_up(
    t3: u8x32,
    t2: u8x32,
    t1: u8x32,
    t0: u8x32,
    high: u8x32,
    low: u8x32,
) -> u8x32
    ensures { (f3 f2 f1 f0 : ℕ → ℕ) → IsTable f3 t3 → IsTable f2 t2 → IsTable f1 t1 → IsTable f0 t0
        → HasLanes 32 result
        (λ k. nibble_sum f3 f2 f1 f0 (slice_index high k) (slice_index low k)) }
{
    sum(
        by_high(t3, high),
        sum(by_low(t2, high), sum(by_high(t1, low), by_low(t0, low))),
    )
}
