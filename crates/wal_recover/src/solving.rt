//! The codeword through openings.

ghost use Rattle.std.specs.Prelude.{◌≡◌, ◌*◌, ◌≤◌, length, All, IfOk};
ghost use Rattle.wal_shape.specs.MetaRef.{metadata_shown};
ghost use Rattle.wal_matrix.specs.Tools.{longest_sliver};
ghost use Rattle.wal_evidence.specs.BadProof.{AreEnough, crosses_of, symbols_of};
ghost use Rattle.wal_recover.specs.Recovery.{TakenComeTo};

use crate::outcome::Recovered;
use std::alloc::{AllocError, Global};
use wal_evidence::root_holds;
use wal_matrix::{Work, solve};
use wal_shape::{Axis, BadProof, Bytes, MetaRef, Opening, Openings};
use wal_tree::Hash32;

/// Copies the symbols one after the other.
fn copy_symbols(openings: &[Opening], size: usize, symbols: &mut [u8])
    requires room { length symbols.old ≡ length openings.now * size }
    requires sizes { All (λ o. length o.symbol ≡ size) openings.now }
    ensures { symbols.new ≡ symbols_of openings.now }
{
    for place in 0..openings.len() {
        let start = place * size;
        symbols[start..start + size].copy_from_slice(openings[place].symbol.as_slice());
    }
}

/// Loads the symbols one after the other.
fn load_symbols(work: &mut Work, openings: &[Opening], size: u32, total: u32)
    requires total { total ≡ length openings.now * size }
    requires room { total ≤ longest_sliver work.old.f }
    requires sizes { All (λ o. length o.symbol ≡ size) openings.now }
    ensures loaded { work.new.loaded ≡ symbols_of openings.now }
    ensures f { work.new.f ≡ work.old.f }
{
    copy_symbols(openings, size as usize, work.load(total));
}

/// What enough openings come to: the sliver, or the proof that they are.
pub(crate) fn solved<H: Hash32>(
    alloc: Global,
    work: &mut Work,
    m: MetaRef<'_>,
    axis: Axis,
    index: u16,
    crosses: &[u16],
    openings: &Openings,
) -> Result<Recovered, AllocError>
    requires f { work.old.f ≡ (metadata_shown m).f }
    requires enough { AreEnough H.digest (metadata_shown m) axis index openings.now }
    requires crosses { crosses.now ≡ crosses_of openings.now }
    ensures comes { IfOk result
        (TakenComeTo H.digest (metadata_shown m.entry) axis index openings.now) }
    ensures f { work.new.f ≡ work.old.f }
{
    let shape = m.shape();
    let total = shape.sliver_len(axis);
    load_symbols(work, openings.as_slice(), shape.symbol_size(), total);
    let word = solve(work, &shape, axis, crosses);
    if root_holds::<H>(m, axis, index, word) {
        let sliver = &word[..total as usize];
        Ok(Recovered::Sliver(Bytes::from_vec(Vec::from_slice(alloc, sliver)?)))
    } else {
        Ok(Recovered::Inconsistent(BadProof::of(alloc, axis, index, openings)?))
    }
}
