//! A sliver or an opening that is not a matrix's own, though it is committed under one root with
//! it.

ghost use Rattle.std.specs.Prelude.{◌≡◌, ◌≢◌, ℕ, ◌+◌, ◌*◌, ◌<◌, ◌≤◌, IfOk, Some, length, slice_get};
ghost use Rattle.std.specs.Prelude.{slice_index};
ghost use Rattle.wal_kernel.specs.Region.{region};
ghost use Rattle.wal_shape.specs.declared.opening.Opening.{Opening};
ghost use Rattle.wal_shape.specs.ProofRef.{proof_shown};
ghost use Rattle.wal_shape.specs.Shape.{IsShape, column_count};
ghost use Rattle.wal_tree.specs.Collision.{IsCollision};
ghost use Rattle.wal_matrix.specs.Matrix.{line_of, primary_of, shards, symbol_bytes};
ghost use Rattle.wal_extract.specs.Contrary.{AreDigestedForJoined, AreDigestedForOpenings};
ghost use Rattle.wal_extract.specs.inside.FalseParts.{HaveFalseOpening, HaveFalseSliver};
ghost use Rattle.wal_extract.specs.inside.FalseParts.{OpeningsMeet, SliversMeet, own_symbol};

use crate::codewords::slivers;
use std::alloc::{AllocError, Global};
use wal_commit::{collide_opening, part_at};
use wal_matrix::Encoded;
use wal_shape::{Axis, Collision, ProofRef};
use wal_tree::Hash32;

/// The place of the first of the joined primary slivers that is not the matrix's own.
fn first_false_sliver(matrix: &Encoded, indices: &[u16], joined: &[u8]) -> usize
    requires { HaveFalseSliver matrix.now.shape.f (symbol_bytes matrix.now)
        matrix.now.cells indices.now joined.now }
    ensures within { result < length indices.now }
    ensures apart { region
        (column_count matrix.now.shape.f * symbol_bytes matrix.now) joined.now result
        ≢ primary_of matrix.now.shape.f (symbol_bytes matrix.now)
        matrix.now.cells (slice_index indices.now result) }
{
    let size = matrix.shape().sliver_len(Axis::Primary) as usize;
    for place in 0..indices.len() {
        if part_at(joined, size, place) != matrix.primary(indices[place]) {
            return place;
        }
    }
    unreachable!()
}

/// Two texts with one digest, from joined primary slivers of which one is not the matrix's own,
/// though each has one root with it.
pub fn collide_held<H: Hash32>(
    alloc: Global,
    matrix: &Encoded,
    indices: &[u16],
    joined: &[u8],
) -> Result<Collision, AllocError>
    requires shape { IsShape matrix.now.shape.f matrix.now.shape.length }
    requires apart { HaveFalseSliver matrix.now.shape.f
        (symbol_bytes matrix.now) matrix.now.cells indices.now joined.now }
    requires meet { SliversMeet H.digest matrix.now.shape.f
        (symbol_bytes matrix.now) matrix.now.cells indices.now joined.now }
    ensures collision { IfOk result (λ c. IsCollision H.digest c.left c.right) }
    ensures texts { IfOk result
        (λ c. AreDigestedForJoined H.digest matrix.now.shape.f (symbol_bytes matrix.now)
        matrix.now.cells indices.now joined.now c.left c.right) }
{
    let place = first_false_sliver(matrix, indices, joined);
    let size = matrix.shape().sliver_len(Axis::Primary) as usize;
    let given = part_at(joined, size, place);
    let own = matrix.primary(indices[place]);
    slivers::<H>(alloc, matrix.shape().f(), Axis::Primary, given, own)
}

/// The symbol of the line of this axis and index at the place `cross`.
fn symbol_of(matrix: &Encoded, axis: Axis, index: u16, cross: u16) -> &[u8]
    requires long { length matrix.now.cells
        ≡ shards matrix.now * shards matrix.now * symbol_bytes matrix.now }
    requires index { index < shards matrix.now }
    requires cross { cross < shards matrix.now }
    ensures { result.now
        ≡ region (symbol_bytes matrix.now)
        (line_of axis matrix.now.shape.f (symbol_bytes matrix.now) matrix.now.cells index) cross }
{
    let size = matrix.shape().symbol_size() as usize;
    match axis {
        Axis::Primary => part_at(matrix.row(index), size, cross as usize),
        Axis::Secondary => part_at(matrix.row(cross), size, index as usize),
    }
}

/// The place of the first opening that has not the symbol of the matrix.
fn first_false_opening(matrix: &Encoded, p: &ProofRef<'_>) -> u16
    requires { HaveFalseOpening matrix.now.shape.f
        (symbol_bytes matrix.now) matrix.now.cells (proof_shown p.now) }
    ensures within { result < length (proof_shown p.now).openings }
    ensures apart { (o : Opening) → slice_get (proof_shown p.now).openings result ≡ Some o
        → o.symbol ≢ own_symbol matrix.now.shape.f
        (symbol_bytes matrix.now) matrix.now.cells (proof_shown p.now) o }
{
    for place in 0..p.count() {
        let opening = p.opening(place);
        if opening.symbol != symbol_of(matrix, p.axis(), p.index(), opening.cross) {
            return place;
        }
    }
    unreachable!()
}

/// Two texts with one digest, from openings of one target of which one has not the symbol of the
/// matrix, though the metadata over the matrix commits each.
pub fn collide_openings<H: Hash32>(
    alloc: Global,
    matrix: &Encoded,
    p: &ProofRef<'_>,
) -> Result<Collision, AllocError>
    requires shape { IsShape matrix.now.shape.f matrix.now.shape.length }
    requires apart { HaveFalseOpening matrix.now.shape.f
        (symbol_bytes matrix.now) matrix.now.cells (proof_shown p.now) }
    requires meet { OpeningsMeet H.digest matrix.now.shape matrix.now.cells (proof_shown p.now) }
    ensures collision { IfOk result (λ c. IsCollision H.digest c.left c.right) }
    ensures texts { IfOk result
        (λ c. AreDigestedForOpenings H.digest matrix.now.shape.f
        (symbol_bytes matrix.now) matrix.now.cells (proof_shown p.now) c.left c.right) }
{
    let opening = p.opening(first_false_opening(matrix, p));
    collide_opening::<H>(alloc, matrix, p.axis(), p.index(), &opening)
}
