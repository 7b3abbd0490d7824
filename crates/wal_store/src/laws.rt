//! What follows of any two keeps from the contract of [`Keep`], each law proved of the definitions
//! that the contract cites.
//!
//! [`one_put`], [`any_calls`], [`calls_in_parts`], [`copies_in_turn`] and [`places_after_drop`]
//! compute nothing: their contracts are the laws. The other functions are the calls of a keep, with
//! a contract that speaks of runs.

ghost use Rattle.std.specs.Prelude.{◌≡◌, ◌≢◌, ◌≤◌, None, Err, false, [], ◌∷◌, length};
ghost use Rattle.wal_shape.specs.Shape.{most_bytes};
ghost use Rattle.wal_store.specs.declared.contract.KeepError.TheVariants.{Memory};
ghost use Rattle.wal_store.specs.Contents.{part_at};
ghost use Rattle.wal_store.specs.Copies.{CopiesJoin, CopiesMakeAll};
ghost use Rattle.wal_store.specs.Places.{ClosesPlace, KeepsBelow, MovesDown};
ghost use Rattle.wal_store.specs.Calls.{Put, DropPart, DropId, Continues, PutsAgree, RunsAgree};
ghost use Rattle.wal_store.specs.Calls.{NeverWants, RunsTogether, EndsAfterCalls, CallsInParts};
ghost use Rattle.wal_store.specs.Calls.{LawfulInParts};

use crate::contract::{Keep, KeepError};
use crate::pool_keep::PoolKeep;
use wal_shape::{BlobId, Part};

/// Two keeps with one limit and one content give one answer to a put, unless one of them wants
/// memory.
pub fn one_put()
    ensures { PutsAgree }
{}

/// The same of any list of calls: two keeps that begin with the same contents under one limit
/// answer alike, and hold the same after. The other calls answer by what is held, so they agree
/// too.
///
/// So a `MapKeep` with a limit stands for a `PoolKeep` of as many pages as long as it finds memory:
/// the pool never wants any. Up to the first put that finds memory short they answer alike in any
/// case.
pub fn any_calls()
    ensures agree { RunsAgree }
    ensures together { RunsTogether }
    ensures never { NeverWants }
{}

/// A list of calls as a change of what is held: a run in which each put stores ends with it, and
/// calls in two parts are those of the first part and then those of the second, as is what makes
/// them lawful.
pub fn calls_in_parts()
    ensures ends { EndsAfterCalls }
    ensures parts { CallsInParts }
    ensures lawful { LawfulInParts }
{}

/// What [`Keep::copy`] gives for a range, then for the one after it, and so on, put one after
/// another, is what one call gives for all of them; and it is the part, if they begin at its
/// front and have as many bytes as [`Keep::size`] says.
pub fn copies_in_turn()
    ensures join { CopiesJoin }
    ensures all { CopiesMakeAll }
{}

/// After an identifier went, those at lower places stand where they stood, and each of the others
/// has the place below its own. So one pass from the last place to the first can drop as it goes.
pub fn places_after_drop()
    ensures closes { ClosesPlace }
    ensures below { KeepsBelow }
    ensures above { MovesDown }
{}

/// A put, as the next call of a run.
pub fn put<K: Keep>(keep: &mut K, id: &BlobId, part: Part, bytes: &[u8]) -> Result<(), KeepError>
    requires absent { part_at (K.contents keep.old) id.now part ≡ None }
    requires some { 1 ≤ length bytes.now }
    requires most { length bytes.now ≤ most_bytes }
    ensures run { Continues (K.limit keep.old) K.may_want (K.contents keep.old)
        (Put id.now part bytes.now) (result ∷ []) (K.contents keep.new) }
    ensures limit { K.limit keep.new ≡ K.limit keep.old }
{
    keep.put(id, part, bytes)
}

/// A put in a keep over pages: it never wants memory.
pub fn put_in_pool(
    keep: &mut PoolKeep,
    id: &BlobId,
    part: Part,
    bytes: &[u8],
) -> Result<(), KeepError>
    requires absent { part_at keep.old.contents id.now part ≡ None }
    requires some { 1 ≤ length bytes.now }
    requires most { length bytes.now ≤ most_bytes }
    ensures never { result ≢ Err Memory }
    ensures run { Continues keep.old.limit false keep.old.contents
        (Put id.now part bytes.now) (result ∷ []) keep.new.contents }
{
    put(keep, id, part, bytes)
}

/// A part that goes, as the next call of a run.
pub fn drop_part<K: Keep>(keep: &mut K, id: &BlobId, part: Part)
    ensures run { Continues (K.limit keep.old) K.may_want (K.contents keep.old)
        (DropPart id.now part) [] (K.contents keep.new) }
    ensures limit { K.limit keep.new ≡ K.limit keep.old }
{
    keep.drop_part(id, part);
}

/// An identifier that goes, as the next call of a run.
pub fn drop_id<K: Keep>(keep: &mut K, id: &BlobId)
    ensures run { Continues (K.limit keep.old) K.may_want (K.contents keep.old)
        (DropId id.now) [] (K.contents keep.new) }
    ensures limit { K.limit keep.new ≡ K.limit keep.old }
{
    keep.drop_id(id);
}
