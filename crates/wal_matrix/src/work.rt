//! What the calls on slivers keep from one to the next.

ghost use Rattle.std.specs.Prelude.{◌≡◌, ℕ, ◌*◌, ◌%◌, ◌<◌, ◌≤◌, List, [], length, take, IfOk, All};
ghost use Rattle.std.specs.Prelude.{replicate, ⊤};
ghost use Rattle.std.specs.Borrow.{sem, follows_so};
ghost use mathlib.Core.Option.{none};
ghost use Rattle.wal_code.specs.Codeword.{Distinct};
ghost use Rattle.wal_shape.specs.Shape.{shard_count, sliver_symbols, symbol_size};
ghost use Rattle.wal_matrix.specs.Tools.{longest_symbol, longest_sliver};
ghost use Rattle.wal_matrix.specs.Lending.{LendsRoom, LendsLoaded};
ghost use Rattle.wal_matrix.specs.Word.{IsWordOf, IsWordThrough};
ghost use Rattle.wal_matrix.specs.contracts.work.Work.{the_row};

use crate::expansion::Expansion;
use std::alloc::{AllocError, Global};
use std::marker::Model;
use wal_shape::{Axis, MOST_BYTES, Shape};

/// The tables and buffers for one number of faults. The calls that are lent them take no memory.
#[derive(Drop)]
pub struct Work {
    expansion: Expansion,
    loaded: Vec<u8>,
}

impl Model for Work {
    ghost use Rattle.std.specs.Prelude.{◌≤◌, vec_capacity};
    ghost use Rattle.wal_matrix.specs.Tools.{WorkState, longest_sliver};

    ghost Value = { WorkState };

    ghost view = { λ w. record { f = w.expansion.f; loaded = w.loaded.items } };

    ghost invariant = { λ w. (1 ≤ w.expansion.f) × (w.expansion.f ≤ 333)
        × (longest_sliver w.expansion.f ≤ vec_capacity w.loaded) };
}

/// The number of bytes of the longest sliver.
fn longest_sliver(f: u32) -> usize
    requires some { 1 ≤ f }
    requires few { f ≤ 333 }
    ensures { result ≡ longest_sliver f }
{
    let Ok(shape) = Shape::new(f, MOST_BYTES) else {
        unreachable!()
    };
    shape.cols() as usize * shape.symbol_size() as usize
}

impl Work {
    /// Takes the memory of all later calls for this number of faults.
    pub fn create(alloc: Global, f: u32) -> Result<Work, AllocError>
        requires some { 1 ≤ f }
        requires few { f ≤ 333 }
        ensures f { IfOk result (λ w. w.f ≡ f) }
        ensures loaded { IfOk result (λ w. w.loaded ≡ []) }
    {
        let expansion = Expansion::create(alloc, f as u16)?;
        let loaded = Vec::with_capacity(alloc, longest_sliver(f))?;
        Ok(Work { expansion, loaded })
    }

    /// The number of faults.
    pub fn f(&self) -> u32
        ensures value { result ≡ self.now.f }
        ensures some { 1 ≤ result }
        ensures few { result ≤ 333 }
    {
        u32::from(self.expansion.f())
    }

    /// Lends a buffer of `size` zeros in place. What is written there are the loaded bytes.
    pub fn load(&mut self, size: u32) -> &mut [u8]
        requires { size ≤ longest_sliver self.old.f }
        ensures* writes_back { sem 𝓛 (LendsLoaded self.entry size result) }
        ensures zeros { result.now ≡ replicate size 0 }
        ensures long { length result.now ≡ size }
    {
        self.clear_loaded(size as usize);
        self.lend_loaded()
    }

    /// The loaded bytes.
    pub fn loaded(&self) -> &[u8]
        ensures { result.now ≡ self.now.loaded }
    {
        self.loaded.as_slice()
    }

    fn clear_loaded(&mut self, size: usize)
        requires { size ≤ longest_sliver self.old.f }
        ensures f { self.new.f ≡ self.old.f }
        ensures zeros { self.new.loaded ≡ replicate size 0 }
    {
        self.loaded.clear();
        match self.loaded.resize(size, 0) {
            Ok(()) => {}
            Err(_) => unreachable!(),
        }
    }

    fn lend_loaded(&mut self) -> &mut [u8]
        ensures* writes_back { sem 𝓛 (LendsRoom self.entry result) }
        ensures value { result.now ≡ self.old.loaded }
    {
        self.loaded.as_mut_slice()
    }
}

/// The codeword of a sliver: n symbols, of which the first are the sliver.
pub fn expand<'a>(work: &'a mut Work, axis: Axis, symbol_size: u32, sliver: &[u8]) -> &'a [u8]
    requires even { symbol_size % 2 ≡ 0 }
    requires least { 2 ≤ symbol_size }
    requires most { symbol_size ≤ longest_symbol work.old.f }
    requires long { length sliver.now ≡ sliver_symbols axis work.old.f * symbol_size }
    ensures* kept { sem 𝓛 (follows_so the_row the_row work.entry.ghost_name none (λ _ _. ⊤)
        (λ w. w.f ≡ work.old.f)) }
    ensures word { IsWordOf axis work.old.f symbol_size sliver.now result.now }
    ensures only { (other : List ℕ) → IsWordOf axis work.old.f symbol_size sliver.now other
        → other ≡ result.now }
{
    work.expansion.fill(axis, symbol_size as usize, sliver);
    work.expansion.symbols()
}

/// The codeword of a sliver, in memory of its own.
pub fn codeword_of(
    alloc: Global,
    work: &mut Work,
    axis: Axis,
    size: u32,
    sliver: &[u8],
) -> Result<Vec<u8>, AllocError>
    requires even { size % 2 ≡ 0 }
    requires least { 2 ≤ size }
    requires most { size ≤ longest_symbol work.old.f }
    requires long { length sliver.now ≡ sliver_symbols axis work.old.f * size }
    ensures word { IfOk result (λ w. IsWordOf axis work.old.f size sliver.now w.items) }
    ensures only { IfOk result
        (λ w. (other : List ℕ) → IsWordOf axis work.old.f size sliver.now other → other ≡ w.items) }
    ensures f { work.new.f ≡ work.old.f }
{
    Vec::from_slice(alloc, expand(work, axis, size, sliver))
}

/// The codeword of the loaded bytes as a sliver: n symbols, of which the first are the sliver.
pub fn expand_loaded<'a>(work: &'a mut Work, axis: Axis, symbol_size: u32) -> &'a [u8]
    requires even { symbol_size % 2 ≡ 0 }
    requires least { 2 ≤ symbol_size }
    requires most { symbol_size ≤ longest_symbol work.old.f }
    requires long { length work.old.loaded ≡ sliver_symbols axis work.old.f * symbol_size }
    ensures* kept { sem 𝓛 (follows_so the_row the_row work.entry.ghost_name none (λ _ _. ⊤)
        (λ w. w.f ≡ work.old.f)) }
    ensures word { IsWordOf axis work.old.f symbol_size work.old.loaded result.now }
    ensures only { (other : List ℕ) → IsWordOf axis work.old.f symbol_size work.old.loaded other
        → other ≡ result.now }
{
    work.expansion
        .fill(axis, symbol_size as usize, &work.loaded);
    work.expansion.symbols()
}

/// The codeword that has the loaded symbols at the known indices, which are joined in the order of
/// these. It has as many dimensions as there are known indices. The sliver that it belongs to is
/// its front.
pub fn solve<'a>(work: &'a mut Work, shape: &Shape, axis: Axis, known: &[u16]) -> &'a [u8]
    requires f { work.old.f ≡ shape.now.f }
    requires count { length known.now ≡ sliver_symbols axis shape.now.f }
    requires distinct { Distinct known.now }
    requires below { All (λ i. i < shard_count shape.now.f) known.now }
    requires loaded { length work.old.loaded
        ≡ sliver_symbols axis shape.now.f * symbol_size shape.now.f shape.now.length }
    ensures* kept { sem 𝓛 (follows_so the_row the_row work.entry.ghost_name none (λ _ _. ⊤)
        (λ w. w.f ≡ work.old.f)) }
    ensures word { IsWordThrough axis shape.now.f
        (symbol_size shape.now.f shape.now.length) known.now
        work.old.loaded result.now }
    ensures sliver { IsWordOf axis shape.now.f (symbol_size shape.now.f shape.now.length)
        (take (sliver_symbols axis shape.now.f * symbol_size shape.now.f shape.now.length)
        result.now)
        result.now }
    ensures only { (other : List ℕ)
        → IsWordThrough axis shape.now.f (symbol_size shape.now.f shape.now.length) known.now
        work.old.loaded other
        → other ≡ result.now }
{
    work.expansion.solve(shape, known, &work.loaded);
    work.expansion.symbols()
}
