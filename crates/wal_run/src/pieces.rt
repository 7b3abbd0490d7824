//! Taking a stream of envelopes from a source, a piece at a time, and feeding it to a reader.

ghost use Rattle.std.specs.Prelude.{◌≡◌, ℕ, ◌+◌, ◌<◌, ◌≤◌, ◌++◌, List, [], length};
ghost use Rattle.wal_port.specs.Faults.{Rose};
ghost use Rattle.wal_reader.specs.Standing.{FinishesStream, StandsFor};
ghost use Rattle.wal_run.specs.inside.Pieces.{FeedsOn, GivesPiece, Stands, TakesStream};

use std::alloc::Global;
use wal_port::{Source, TakeError};
use wal_reader::{FeedError, FinishError, ReadAnswer, Reader};
use wal_tree::Hash32;

/// How many bytes one read asks for at most.
const PIECE: usize = 65_536;

/// The most bytes of a stream of envelopes.
const LIMIT: u64 = 134_217_728;

/// Takes the next piece of a source that gave so many bytes: none at its end.
fn next_piece<S: Source>(source: &mut S, buffer: &mut [u8], taken: u64) -> Result<usize, TakeError>
    requires some { 0 < length buffer.old }
    requires within { taken ≤ 134217728 }
    ensures gives { GivesPiece (S.left source.old) (S.left source.new)
        (Rose (S.faults source.old) (S.faults source.new)) taken buffer.new result }
    ensures later { S.faults source.old ≤ S.faults source.new }
{
    let room = buffer.len().min((LIMIT + 1 - taken) as usize);
    let count = source.read(&mut buffer[..room])?;
    if taken + count as u64 > LIMIT {
        return Err(TakeError::TooLong);
    }
    Ok(count)
}

/// Feeds a piece to the reader, unless the stream is malformed at a place before. Gives the place
/// where it is, if it is.
fn feed_piece<H: Hash32>(
    alloc: Global,
    reader: &mut Reader<H>,
    wrong: Option<u64>,
    piece: &[u8],
) -> Result<Option<u64>, TakeError>
    ensures feeds { (id : List ℕ) (stream : List ℕ) → Stands H.digest id reader.old wrong stream
        → length stream + length piece.now ≤ 134217728
        → FeedsOn H.digest id reader.new (stream ++ piece.now) result }
{
    match wrong {
        Some(place) => Ok(Some(place)),
        None => match reader.feed(alloc, piece) {
            Ok(()) => Ok(None),
            Err(FeedError::Malformed(place)) => Ok(Some(place)),
            Err(FeedError::TooLong) => Err(TakeError::TooLong),
            Err(FeedError::Memory) => Err(TakeError::Memory),
        },
    }
}

/// Takes all pieces of a source and feeds them to the reader. Gives the place where a byte begins
/// no envelope, if there is one.
fn feed_pieces<H: Hash32, S: Source>(
    alloc: Global,
    reader: &mut Reader<H>,
    source: &mut S,
    buffer: &mut [u8],
) -> Result<Option<u64>, TakeError>
    requires some { 0 < length buffer.old }
    ensures takes { (id : List ℕ) → StandsFor H.digest id reader.old []
        → TakesStream H.digest id (S.left source.old) (S.left source.new)
        (Rose (S.faults source.old) (S.faults source.new)) reader.new result }
    ensures later { S.faults source.old ≤ S.faults source.new }
{
    let mut taken = 0;
    let mut wrong = None;
    'pieces: loop {
        let count = next_piece(source, buffer, taken)?;
        if count == 0 {
            return Ok(wrong);
        }
        wrong = feed_piece(alloc, reader, wrong, &buffer[..count])?;
        taken += count as u64;
    }
}

/// Takes the whole stream of a source, in pieces. Gives the place where a byte begins no envelope,
/// if there is one.
pub fn take_stream<H: Hash32, S: Source>(
    alloc: Global,
    reader: &mut Reader<H>,
    source: &mut S,
) -> Result<Option<u64>, TakeError>
    ensures takes { (id : List ℕ) → StandsFor H.digest id reader.old []
        → TakesStream H.digest id (S.left source.old) (S.left source.new)
        (Rose (S.faults source.old) (S.faults source.new)) reader.new result }
    ensures later { S.faults source.old ≤ S.faults source.new }
{
    let mut buffer = vec![in alloc; 0u8; PIECE]?;
    feed_pieces::<H, S>(alloc, reader, source, &mut buffer)
}

/// What comes of the stream that was fed to the reader, which is malformed at a place or not.
pub fn finish_stream<H: Hash32>(
    alloc: Global,
    reader: Reader<H>,
    wrong: Option<u64>,
) -> Result<ReadAnswer, FinishError>
    ensures finishes { (id : List ℕ) (stream : List ℕ) → Stands H.digest id reader wrong stream
        → FinishesStream H.digest id stream result }
{
    match wrong {
        Some(place) => Err(FinishError::Malformed(place)),
        None => reader.finish(alloc),
    }
}
