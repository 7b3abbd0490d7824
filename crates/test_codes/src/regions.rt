//! Sums, transforms and codewords over regions. The values were computed by products and inverses
//! of the field alone, apart from this code.

use std::alloc::{AllocError, Global};
use std::test::Fail;
use wal_erasure::solve_regions;
use wal_fft::{PointRange, evaluate, extend_regions, restore, scratch_size, skew};
use wal_gf::Gf;
use wal_kernel::{add_region, add_scaled};

const TARGET: [u8; 8] = [0x12, 0x34, 0xff, 0xff, 0x00, 0x01, 0xab, 0xcd];

const SOURCE: [u8; 8] = [0x80, 0x00, 0x00, 0x01, 0x10, 0x0b, 0x56, 0x78];

const SUM: [u8; 8] = [0x92, 0x34, 0xff, 0xfe, 0x10, 0x0a, 0xfd, 0xb5];

/// An element, and the sum of the target and its product with the source.
const SUMS: [(u16, [u8; 8]); 5] = [
    (0x0000, TARGET),
    (0x0001, SUM),
    (0x0002, [0x02, 0x3f, 0xff, 0xfd, 0x20, 0x17, 0x07, 0x3d]),
    (0x8000, [0x9c, 0xce, 0x7f, 0xff, 0x0d, 0xfe, 0xec, 0x1c]),
    (0xffff, [0x69, 0x61, 0x00, 0x00, 0xf6, 0xab, 0xe3, 0x7b]),
];

/// The longest region, of blocks of vectors and a rest.
const LONG: usize = 2100;

/// These eight bytes, over and over.
fn repeated(part: &[u8; 8]) -> [u8; LONG] {
    let mut bytes = [0; LONG];
    for place in 0..LONG {
        bytes[place] = part[place % 8];
    }
    bytes
}

/// Whether the words of regions of every even length sum so, and those behind them stay.
fn are_scaled(c: u16, sum: &[u8; 8]) -> bool {
    let source = repeated(&SOURCE);
    let plain = repeated(&TARGET);
    let summed = repeated(sum);
    let mut all = true;
    for half in 0..LONG / 2 + 1 {
        let mut target = plain;
        add_scaled(&mut target[..2 * half], Gf(c), &source[..2 * half]);
        all &= target[..2 * half] == summed[..2 * half] && target[2 * half..] == plain[2 * half..];
    }
    all
}

/// Whether the same holds of sums without products.
fn are_sums() -> bool {
    let source = repeated(&SOURCE);
    let plain = repeated(&TARGET);
    let summed = repeated(&SUM);
    let mut all = true;
    for half in 0..LONG / 2 + 1 {
        let mut target = plain;
        add_region(&mut target[..2 * half], &source[..2 * half]);
        all &= target[..2 * half] == summed[..2 * half] && target[2 * half..] == plain[2 * half..];
    }
    all
}

#[test]
fn sums_of_every_even_length(rt: HostRuntime) {
    let mut all = are_sums();
    for (c, sum) in SUMS {
        all &= are_scaled(c, &sum);
    }
    assert!(rt; all);
}

// The product of the differences of the point from the points below 2^row, over that at 2^row.
#[test]
fn skews_are_products_of_differences(rt: HostRuntime) {
    assert!(rt; skew(3, 1000).0 == 53931 && skew(5, 777).0 == 21874 && skew(9, 1023).0 == 1);
}

const COEFFICIENTS: [u8; 16] = [0, 1, 0, 2, 0, 3, 0, 4, 1, 244, 234, 96, 0, 7, 255, 255];

const VALUES: [u8; 16] = [
    145, 93, 128, 138, 129, 195, 191, 157, 66, 183, 55, 147, 138, 49, 47, 99,
];

#[test]
fn values_at_the_second_block(rt: HostRuntime) {
    let mut runs = COEFFICIENTS;
    evaluate(&mut runs, 1, 3, 1, PointRange { from: 8, to: 16 });
    let there = runs == VALUES;
    restore(&mut runs, 1, 3, 1, 8);
    assert!(rt; there && runs == COEFFICIENTS);
}

/// The words of a codeword of dimension five.
const CODEWORD: [u8; 24] = [
    0, 1, 0, 2, 0, 3, 128, 0, 255, 255, 207, 225, 191, 209, 15, 207, 216, 51, 56, 82, 72, 210, 40,
    179,
];

/// Whether the first five words give all twelve.
fn is_extended(alloc: Global) -> Result<bool, AllocError> {
    let mut regions = [0; 24];
    regions[..10].copy_from_slice(&CODEWORD[..10]);
    let mut scratch = vec![in alloc; 0u8; scratch_size(12, 2)]?;
    extend_regions(5, 12, 2, &mut regions, &mut scratch);
    Ok(regions == CODEWORD)
}

/// Whether the words at these places give all twelve.
fn is_solved(alloc: Global) -> Result<bool, AllocError> {
    let mut sources = [0; 10];
    sources[..2].copy_from_slice(&CODEWORD[2..4]);
    sources[2..4].copy_from_slice(&CODEWORD[8..10]);
    sources[4..8].copy_from_slice(&CODEWORD[12..16]);
    sources[8..].copy_from_slice(&CODEWORD[22..]);
    let mut targets = [7; 24];
    let mut scratch = vec![in alloc; 0u8; scratch_size(12, 2)]?;
    solve_regions(
        &[1, 4, 6, 7, 11],
        12,
        12,
        2,
        &sources,
        &mut targets,
        &mut scratch,
    );
    Ok(targets == CODEWORD)
}

#[test]
fn twelve_words_of_five(rt: HostRuntime) -> Result<(), Fail> {
    assert!(rt; is_extended(rt.alloc())? && is_solved(rt.alloc())?);
    Ok(())
}
