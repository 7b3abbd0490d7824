//! A table of interpolation coefficients, made once and used at every word position.

ghost use Rattle.std.specs.Prelude.{◌≡◌, ℕ, ◌<◌, ◌≤◌, length, slice_index, All, IfOk};
ghost use Rattle.wal_code.specs.Codeword.{Distinct, coefficient, Interpolates};

use crate::weights::{MAX_POINTS, fill_scales, fill_weights};
use std::alloc::{AllocError, Global};
use std::marker::Model;
use wal_gf::Gf;

/// The coefficient of each known index for each wanted index. Contracts see the two lists of
/// indices.
#[derive(Drop)]
pub struct Coeffs {
    known: Vec<u16>,
    wanted: Vec<u16>,
    /// for each wanted index a row of as many coefficients as there are known indices
    table: Vec<Gf>,
}

impl Model for Coeffs {
    ghost use Rattle.std.specs.Prelude.{ℕ, List};
    ghost use Rattle.wal_code.specs.Codeword.{Places};
    ghost use Rattle.wal_code.specs.inside.Table.{IsTable};

    ghost Value = { Places };

    ghost view = { λ c. record { known = c.known.items; wanted = c.wanted.items } };

    ghost invariant = { λ c. IsTable c.known.items c.wanted.items c.table.items };
}

impl Coeffs {
    /// Makes the coefficients. The one error is want of memory.
    pub fn new(alloc: Global, known: &[u16], wanted: &[u16]) -> Result<Coeffs, AllocError>
        requires distinct { Distinct known.now }
        requires some { 1 ≤ length known.now }
        requires most { length known.now ≤ 1000 }
        requires known_below { All (λ p. p < 1000) known.now }
        requires wanted_below { All (λ p. p < 1000) wanted.now }
        ensures { IfOk result (λ c. c ≡ record { known = known.now; wanted = wanted.now }) }
    {
        let mut scale_room = [Gf(0); MAX_POINTS];
        let mut weight_room = [Gf(0); MAX_POINTS];
        let scales = &mut scale_room[..known.len()];
        let weights = &mut weight_room[..known.len()];
        fill_scales(known, scales);
        let mut table = Vec::new(alloc);
        for point in wanted {
            fill_weights(known, scales, *point, weights);
            table.extend_from_slice(weights)?;
        }
        Ok(Coeffs {
            known: known.to_vec(alloc)?,
            wanted: wanted.to_vec(alloc)?,
            table,
        })
    }

    /// The coefficient of the known index at place `k` for the wanted index at place `w`.
    pub fn at(&self, w: u16, k: u16) -> Gf
        requires wanted { w < length self.now.wanted }
        requires known { k < length self.now.known }
        ensures value { result.0
            ≡ coefficient self.now.known (slice_index self.now.known k)
            (slice_index self.now.wanted w) }
        ensures meaning { Interpolates self.now.known (slice_index self.now.wanted w) }
    {
        self.table[w as usize * self.known.len() + k as usize]
    }
}
