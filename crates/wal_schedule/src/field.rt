//! What stands under the keys of an object.

ghost use Rattle.std.specs.Prelude.{◌≡◌, ◌≤◌, is_some, codes, IfOk};
ghost use Rattle.std.specs.Result.{result_ok};
ghost use Rattle.hex.specs.Hex.{decode_of, decode_sized};
ghost use Rattle.serde_json.specs.Find.{get};
ghost use Rattle.serde_json.specs.View.{view, items_view};
ghost use Rattle.wal_schedule.specs.Reading as read;
ghost use Rattle.wal_schedule.specs.inside.Reading.{Gives, Reads};

use crate::fault::Fault;
use hex::FromHexError;
use serde_json::Value;
use std::alloc::Global;
use wal_shape::{Axis, BlobId, Bytes, Shards, Side};

/// The greatest number of 16 bits.
const MOST_16: u64 = 65_535;

/// What stands under a key.
pub(crate) fn field<'v>(value: &'v Value, key: &str) -> Result<&'v Value, Fault>
    ensures { Gives (λ v. view v.now) result (get key.now (view value.now)) }
{
    match value.get(key) {
        Some(found) => Ok(found),
        None => Err(Fault::Bad),
    }
}

/// Whether something stands under a key.
pub(crate) fn has(value: &Value, key: &str) -> bool
    ensures { result ≡ is_some (get key.now (view value.now)) }
{
    value.get(key).is_some()
}

/// The number of keys, and 0 of what is no object.
pub(crate) fn key_count(value: &Value) -> usize
    ensures { result ≡ read.key_count (view value.now) }
{
    match value.as_object() {
        Some(map) => map.len(),
        None => 0,
    }
}

/// A whole number of at most `most`.
fn whole(value: &Value, most: u64) -> Result<u64, Fault>
    ensures read { Reads result (read.whole_of most (view value.now)) }
    ensures most { IfOk result (λ n. n ≤ most) }
{
    match value.as_u64() {
        Some(number) => {
            if number <= most {
                Ok(number)
            } else {
                Err(Fault::Bad)
            }
        }
        None => Err(Fault::Bad),
    }
}

/// A whole number of at most `most` under a key.
pub(crate) fn whole_at(value: &Value, key: &str, most: u64) -> Result<u64, Fault>
    ensures read { Reads result (read.whole_at most key.now (view value.now)) }
    ensures most { IfOk result (λ n. n ≤ most) }
{
    whole(field(value, key)?, most)
}

/// A number of 16 bits.
fn number_in(value: &Value) -> Result<u16, Fault>
    ensures { Reads result (read.whole_of 65535 (view value.now)) }
{
    Ok(whole(value, MOST_16)? as u16)
}

/// The number of 16 bits under a key.
pub(crate) fn number_at(value: &Value, key: &str) -> Result<u16, Fault>
    ensures { Reads result (read.whole_at 65535 key.now (view value.now)) }
{
    number_in(field(value, key)?)
}

/// The number of a shard.
pub(crate) fn shard_at(value: &Value) -> Result<u16, Fault>
    ensures { Reads result (read.shard_at (view value.now)) }
{
    number_at(value, "shard")
}

/// The text under a key.
pub(crate) fn text_at<'v>(value: &'v Value, key: &str) -> Result<&'v str, Fault>
    ensures { Gives (λ s. s.now) result (read.text_at key.now (view value.now)) }
{
    match field(value, key)?.as_str() {
        Some(text) => Ok(text),
        None => Err(Fault::Bad),
    }
}

/// The bytes of hexadecimal digits.
fn decoded(alloc: Global, text: &str) -> Result<Bytes, Fault>
    ensures { Reads result (result_ok (decode_of text.now)) }
{
    match hex::decode(alloc, text.as_bytes()) {
        Ok(bytes) => Ok(Bytes::from_vec(bytes)),
        Err(FromHexError::OutOfMemory) => Err(Fault::Memory),
        Err(_) => Err(Fault::Bad),
    }
}

/// The bytes under a key.
pub(crate) fn bytes_at(alloc: Global, value: &Value, key: &str) -> Result<Bytes, Fault>
    ensures { Reads result (read.bytes_at key.now (view value.now)) }
{
    decoded(alloc, text_at(value, key)?)
}

/// The identifier of 64 hexadecimal digits.
fn decoded_id(text: &str) -> Result<BlobId, Fault>
    ensures { Gives (λ id. id.0) result (result_ok (decode_sized text.now 32)) }
{
    let mut bytes = [0; 32];
    match hex::decode_to_slice(text.as_bytes(), &mut bytes) {
        Ok(()) => Ok(BlobId(bytes)),
        Err(_) => Err(Fault::Bad),
    }
}

/// The identifier under its key.
pub(crate) fn id_at(value: &Value) -> Result<BlobId, Fault>
    ensures { Reads result (read.id_at (view value.now)) }
{
    decoded_id(text_at(value, "id")?)
}

/// The side under its key.
pub(crate) fn side_at(value: &Value) -> Result<Side, Fault>
    ensures { Reads result (read.side_at (view value.now)) }
{
    let name = text_at(value, "at")?;
    if name == "now" {
        return Ok(Side::Now);
    }
    if name == "next" {
        return Ok(Side::Next);
    }
    Err(Fault::Bad)
}

/// The axis under its key.
pub(crate) fn axis_at(value: &Value) -> Result<Axis, Fault>
    ensures { Reads result (read.axis_at (view value.now)) }
{
    let name = text_at(value, "axis")?;
    if name == "primary" {
        return Ok(Axis::Primary);
    }
    if name == "secondary" {
        return Ok(Axis::Secondary);
    }
    Err(Fault::Bad)
}

/// The list under a key.
pub(crate) fn items_at<'v>(value: &'v Value, key: &str) -> Result<&'v [Value], Fault>
    ensures { Gives (λ items. items_view items.now) result
        (read.items_at key.now (view value.now)) }
{
    match field(value, key)?.as_array() {
        Some(items) => Ok(items.as_slice()),
        None => Err(Fault::Bad),
    }
}

/// Numbers of 16 bits.
fn numbers_in(alloc: Global, items: &[Value]) -> Result<Shards, Fault>
    ensures { Reads result (read.numbers_of (items_view items.now)) }
{
    let mut numbers = Vec::with_capacity(alloc, items.len())?;
    for item in items {
        let number = number_in(item)?;
        numbers.push(number)?;
    }
    Ok(Shards::from_vec(numbers))
}

/// The list of numbers of 16 bits under a key.
pub(crate) fn list_at(alloc: Global, value: &Value, key: &str) -> Result<Shards, Fault>
    ensures { Reads result (read.list_at key.now (view value.now)) }
{
    numbers_in(alloc, items_at(value, key)?)
}
