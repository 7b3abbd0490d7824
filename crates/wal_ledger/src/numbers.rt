//! Numbers of identifiers, in ascending order of the identifiers.

ghost use Rattle.std.specs.Prelude.{◌≡◌, ◌<◌, length, IfOk, IfErr, Contains};
ghost use Rattle.wal_shape.specs.Identifiers.{id_cmp};
ghost use Rattle.wal_ledger.specs.Order.{Ascends};
ghost use Rattle.wal_ledger.specs.inside.Rows.{IsPlace, IsInsertionPoint, IsOrder, id_of, ids_of};

use std::cmp::Ordering;
use wal_shape::BlobId;

/// How the identifier of a number compares to another one.
fn compare(ids: &[BlobId], number: u32, id: &BlobId) -> Ordering
    ensures { result ≡ id_cmp (id_of ids.now number) id.now }
{
    match ids.get(number as usize) {
        Some(other) => other.cmp(id),
        None => BlobId([0; 32]).cmp(id),
    }
}

/// The place of an identifier's number among numbers, or where it belongs.
pub(crate) fn place_in(ids: &[BlobId], numbers: &[u32], id: &BlobId) -> Result<usize, usize>
    requires { Ascends (ids_of ids.now numbers.now) }
    ensures found { IfOk result (IsPlace (ids_of ids.now numbers.now) id.now) }
    ensures gap { IfErr result (IsInsertionPoint (ids_of ids.now numbers.now) id.now) }
{
    numbers.binary_search_by(|number| compare(ids, *number, id))
}

/// The number of an identifier that has one among numbers.
pub(crate) fn number_of(ids: &[BlobId], numbers: &[u32], id: &BlobId) -> u32
    requires order { IsOrder ids.now numbers.now }
    requires there { Contains (ids_of ids.now numbers.now) id.now }
    ensures below { result < length ids.now }
    ensures id { id_of ids.now result ≡ id.now }
{
    match place_in(ids, numbers, id) {
        Ok(place) => numbers[place],
        Err(_) => unreachable!(),
    }
}
