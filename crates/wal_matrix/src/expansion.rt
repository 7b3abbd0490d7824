//! The codeword of a sliver, in a buffer that is kept.

ghost use Rattle.std.specs.Prelude.{◌≡◌, ℕ, ◌+◌, ◌-◌, ◌*◌, ◌%◌, ◌<◌, ◌≤◌, ◌++◌, List, length, take};
ghost use Rattle.std.specs.Prelude.{replicate, IfOk, All, vec_capacity};
ghost use Rattle.wal_code.specs.Codeword.{Distinct};
ghost use Rattle.wal_shape.specs.Shape.{shard_count, row_count, column_count, sliver_symbols};
ghost use Rattle.wal_shape.specs.Shape.{symbol_size, most_bytes};
ghost use Rattle.wal_matrix.specs.Tools.{longest_symbol};
ghost use Rattle.wal_matrix.specs.Word.{IsWordOf, BeginsCodeword, PassesCodeword};

use crate::solving::solve_symbols;
use std::alloc::{AllocError, Global};
use std::marker::Model;
use wal_fft::{extend_regions, scratch_size};
use wal_shape::{Axis, MOST_BYTES, Shape};

/// The bytes of each symbol that the scratch is made for. Longer ones are extended in as many
/// strips.
const RUN: usize = 2048;

/// A buffer for a codeword for a number of faults, and the scratch in which it is extended and
/// solved.
#[derive(Drop)]
pub(crate) struct Expansion {
    f: u16,
    symbols: Vec<u8>,
    scratch: Vec<u8>,
}

impl Model for Expansion {
    ghost use Rattle.std.specs.Prelude.{vec_capacity, vec_len};
    ghost use Rattle.wal_matrix.specs.inside.Tools.{ExpansionState, AreTools};

    ghost Value = { ExpansionState };

    ghost view = { λ e. record { f = e.f; symbols = e.symbols.items } };

    ghost invariant = { λ e. AreTools e.f (vec_capacity e.symbols) (vec_len e.scratch) };
}

/// Fills a vector with a sliver and zeros after it, within its capacity.
fn refill(symbols: &mut Vec<u8>, sliver: &[u8], size: usize)
    requires fewer { length sliver.now ≤ size }
    requires room { size ≤ vec_capacity symbols.old }
    ensures filled { symbols.new.items ≡ sliver.now ++ replicate (size - length sliver.now) 0 }
    ensures room { vec_capacity symbols.old ≤ vec_capacity symbols.new }
{
    symbols.clear();
    match symbols.extend_from_slice(sliver) {
        Ok(()) => {}
        Err(_) => unreachable!(),
    }
    match symbols.resize(size, 0) {
        Ok(()) => {}
        Err(_) => unreachable!(),
    }
}

impl Expansion {
    /// Takes the memory of the longest codeword, and that of the scratch.
    pub(crate) fn create(alloc: Global, f: u16) -> Result<Expansion, AllocError>
        requires some { 1 ≤ f }
        requires few { f ≤ 333 }
        ensures { IfOk result (λ e. e.f ≡ f) }
    {
        let Ok(shape) = Shape::new(u32::from(f), MOST_BYTES) else {
            unreachable!()
        };
        let room = shape.n() as usize * shape.symbol_size() as usize;
        let symbols = Vec::with_capacity(alloc, room)?;
        let scratch = vec![in alloc; 0u8; scratch_size(3 * f + 1, RUN)]?;
        Ok(Expansion {
            f,
            symbols,
            scratch,
        })
    }
}

/// Fills the symbols from `known` on.
fn extend_symbols(known: u16, total: u16, size: usize, symbols: &mut [u8], scratch: &mut [u8])
    requires fewer { known ≤ total }
    requires few { total ≤ 1000 }
    requires even { size % 2 ≡ 0 }
    requires long { length symbols.old ≡ total * size }
    requires scratch { 2048 ≤ length scratch.old }
    ensures { BeginsCodeword known total size (take (known * size) symbols.old) symbols.new }
{
    extend_regions(known, total, size, symbols, scratch);
}

/// Fills a vector with the sliver's codeword, within its capacity.
fn fill_word(
    known: u16,
    total: u16,
    size: usize,
    sliver: &[u8],
    symbols: &mut Vec<u8>,
    scratch: &mut [u8],
)
    requires fewer { known ≤ total }
    requires few { total ≤ 1000 }
    requires even { size % 2 ≡ 0 }
    requires sliver { length sliver.now ≡ known * size }
    requires room { total * size ≤ vec_capacity symbols.old }
    requires scratch { 2048 ≤ length scratch.old }
    ensures word { BeginsCodeword known total size sliver.now symbols.new.items }
    ensures room { vec_capacity symbols.old ≤ vec_capacity symbols.new }
{
    refill(symbols, sliver, total as usize * size);
    extend_symbols(known, total, size, symbols, scratch);
}

/// Fills a vector with the codeword that has the loaded symbols at the known indices, within its
/// capacity.
fn fill_solved(
    known: &[u16],
    total: u16,
    size: usize,
    loaded: &[u8],
    symbols: &mut Vec<u8>,
    scratch: &mut [u8],
)
    requires distinct { Distinct known.now }
    requires below { All (λ i. i < total) known.now }
    requires few { total ≤ 1000 }
    requires even { size % 2 ≡ 0 }
    requires filled { 0 < size }
    requires loaded { length loaded.now ≡ length known.now * size }
    requires room { total * size ≤ vec_capacity symbols.old }
    requires scratch { 2048 ≤ length scratch.old }
    ensures word { PassesCodeword (length known.now) total
        size known.now loaded.now symbols.new.items }
    ensures only { (other : List ℕ)
        → PassesCodeword (length known.now) total size known.now loaded.now other
        → other ≡ symbols.new.items }
    ensures room { vec_capacity symbols.old ≤ vec_capacity symbols.new }
{
    refill(symbols, &[], total as usize * size);
    solve_symbols(known, total, size, loaded, symbols, scratch);
}

/// The number of symbols of a sliver.
fn known_count(axis: Axis, f: u16) -> u16
    requires { f ≤ 333 }
    ensures { result ≡ sliver_symbols axis f }
{
    match axis {
        Axis::Primary => 2 * f + 1,
        Axis::Secondary => f + 1,
    }
}

impl Expansion {
    /// Fills the codeword of a sliver with symbols of `size` bytes.
    pub(crate) fn fill(&mut self, axis: Axis, size: usize, sliver: &[u8])
        requires even { size % 2 ≡ 0 }
        requires filled { 0 < size }
        requires most { size ≤ longest_symbol self.old.f }
        requires long { length sliver.now ≡ sliver_symbols axis self.old.f * size }
        ensures f { self.new.f ≡ self.old.f }
        ensures word { IsWordOf axis self.old.f size sliver.now self.new.symbols }
        ensures only { (other : List ℕ) → IsWordOf axis self.old.f size sliver.now other
            → other ≡ self.new.symbols }
    {
        let known = known_count(axis, self.f);
        fill_word(
            known,
            3 * self.f + 1,
            size,
            sliver,
            &mut self.symbols,
            &mut self.scratch,
        );
    }

    /// Fills the codeword that has the loaded symbols at the known indices.
    pub(crate) fn solve(&mut self, shape: &Shape, known: &[u16], loaded: &[u8])
        requires f { self.old.f ≡ shape.now.f }
        requires distinct { Distinct known.now }
        requires below { All (λ i. i < shard_count shape.now.f) known.now }
        requires loaded { length loaded.now
            ≡ length known.now * symbol_size shape.now.f shape.now.length }
        ensures f { self.new.f ≡ self.old.f }
        ensures word { PassesCodeword (length known.now) (shard_count shape.now.f)
            (symbol_size shape.now.f shape.now.length) known.now loaded.now self.new.symbols }
        ensures only { (other : List ℕ)
            → PassesCodeword (length known.now) (shard_count shape.now.f)
            (symbol_size shape.now.f shape.now.length) known.now loaded.now other
            → other ≡ self.new.symbols }
    {
        let faults = shape.f() as u16;
        let size = shape.symbol_size() as usize;
        fill_solved(
            known,
            3 * faults + 1,
            size,
            loaded,
            &mut self.symbols,
            &mut self.scratch,
        );
    }

    /// The number of faults.
    pub(crate) fn f(&self) -> u16
        ensures value { result ≡ self.now.f }
        ensures some { 1 ≤ result }
        ensures few { result ≤ 333 }
    {
        self.f
    }

    /// The symbols that were filled last.
    pub(crate) fn symbols(&self) -> &[u8]
        ensures { result.now ≡ self.now.symbols }
    {
        self.symbols.as_slice()
    }
}
