//! Values from a separate program, which multiplies first and divides by the polynomial afterwards.

use std::alloc::{AllocError, Global};
use std::test::Fail;
use wal_code::{Coeffs, coefficient, extend_words, solve_words};
use wal_gf::{Gf, Poly};

/// Two elements, and their product.
const PRODUCTS: [(u16, u16, u16); 5] = [
    (0x8000, 0x0002, 0x100B),
    (0xFFFF, 0xFFFF, 0x0733),
    (0x1234, 0xABCD, 0x4792),
    (0x8000, 0x8000, 0x8EFA),
    (0xBEEF, 0x0003, 0xD33A),
];

/// An element, a number, and the power.
const POWERS: [(u16, u32, u16); 5] = [
    (2, 0, 1),
    (2, 16, 0x100B),
    (3, 1000, 0x512B),
    (2, 65534, 0x8805),
    (0xFFFF, 65534, 0x0894),
];

fn are_products() -> bool {
    let mut all = true;
    for (a, b, product) in PRODUCTS {
        all &= Gf(a).mul(Gf(b)) == Gf(product);
    }
    all
}

fn are_powers() -> bool {
    let mut all = true;
    for (a, e, power) in POWERS {
        all &= Gf(a).pow(e) == Gf(power);
    }
    all
}

#[test]
fn products_and_powers(rt: HostRuntime) {
    assert!(rt; are_products() && are_powers() && Gf(2).inv() == Gf(0x8805));
}

/// Whether the line through 1 at 0 and 4 at 1 is found.
fn is_line(alloc: Global) -> Result<bool, AllocError> {
    let line = Poly::interpolate(alloc, &[Gf(0), Gf(1)], &[Gf(1), Gf(4)])?;
    Ok(line.coefficients() == [Gf(1), Gf(5)].as_slice() && line.eval(Gf(3)) == Gf(14))
}

#[test]
fn a_line_through_two_points(rt: HostRuntime) -> Result<(), Fail> {
    assert!(rt; is_line(rt.alloc())?);
    Ok(())
}

/// Whether the table for the points 0 and 1 has the coefficients of the points 2 and 3.
fn is_table(alloc: Global) -> Result<bool, AllocError> {
    let table = Coeffs::new(alloc, &[0, 1], &[2, 3])?;
    Ok(
        table.at(0, 0) == Gf(3)
            && table.at(0, 1) == Gf(2)
            && table.at(1, 0) == coefficient(&[0, 1], 0, 3),
    )
}

#[test]
fn a_table_of_coefficients(rt: HostRuntime) -> Result<(), Fail> {
    assert!(rt; is_table(rt.alloc())?);
    Ok(())
}

// The points from 0 to 3 sum to zero, so the last of four words is the sum of the others.
#[test]
fn a_row_and_a_column_of_four_words(rt: HostRuntime) {
    let mut row = [0; 4];
    extend_words(&[7, 100, 4660], &mut row);
    let mut column = [0; 4];
    solve_words(&[3, 2], &[14, 11], &mut column);
    assert!(rt; row == [7, 100, 4660, 7 ^ 100 ^ 4660] && column == [1, 4, 11, 14]);
}
