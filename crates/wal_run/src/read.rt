//! The command that reads a blob back from recorded envelopes.

ghost use Rattle.std.specs.Prelude.{◌≡◌, ℕ, ◌≤◌, List, [], Err};
ghost use Rattle.wal_reader.specs.Standing.{FinishesStream, StandsFor};
ghost use Rattle.wal_words.specs.declared.task.Task.TheVariants.{Read};
ghost use Rattle.wal_words.specs.Task.{IsTask};
ghost use Rattle.wal_run.specs.Answers.{Ends};
ghost use Rattle.wal_run.specs.Command.{IsResult};
ghost use Rattle.wal_run.specs.Around.{seen};
ghost use Rattle.wal_run.specs.Reading.{reading};
ghost use Rattle.wal_run.specs.inside.Answers.{Refuses, Says};
ghost use Rattle.wal_run.specs.inside.Reading.{outcome_status, outcome_text};

use crate::answer::{Answer, write_answer};
use crate::finish::{NO_MEMORY, SOURCE_FAILED, TOO_LONG, finish};
use crate::pieces::{finish_stream, take_stream};
use crate::refusal::Refusal;
use std::alloc::Global;
use wal_port::{Sink, Source, TakeError};
use wal_reader::{FinishError, Outcome, ReadAnswer, Reader};
use wal_shape::BlobId;
use wal_tree::Hash32;

/// What the payloads came to.
fn outcome_answer(outcome: Outcome) -> Result<Answer, Refusal>
    ensures { Says result (λ s text. (s ≡ outcome_status outcome) × (text ≡ outcome_text outcome)) }
{
    match outcome {
        Outcome::Bytes(bytes) => Ok(Answer::Bytes(bytes)),
        Outcome::Reject => Err(Refusal::Reject),
        Outcome::Short { have, need } => Err(Refusal::Short { have, need }),
        Outcome::NoMetadata => Err(Refusal::NoMetadata),
        Outcome::Collision(clash) => Err(Refusal::MetadataClash(clash)),
    }
}

/// Why the whole stream has no answer.
fn refusal_of<H: Hash32>(error: FinishError) -> Refusal
    ensures { (id : BlobId) (stream : List ℕ) → FinishesStream H.digest id.0 stream (Err error)
        → Refuses result (IsResult H.digest (reading H.digest id) stream) }
{
    match error {
        FinishError::Malformed(place) => Refusal::Malformed(place),
        // What was taken is within the limit, so that it is memory.
        FinishError::TooLong | FinishError::Memory => Refusal::Memory,
    }
}

/// What came of the whole stream.
fn stream_answer<H: Hash32>(answer: Result<ReadAnswer, FinishError>) -> Result<Answer, Refusal>
    ensures { (id : BlobId) (stream : List ℕ) → FinishesStream H.digest id.0 stream answer
        → Says result (IsResult H.digest (reading H.digest id) stream) }
{
    match answer {
        Ok(answer) => outcome_answer(answer.outcome),
        Err(error) => Err(refusal_of::<H>(error)),
    }
}

/// Writes the result of reading the source's stream, of which the reader has heard nothing yet.
fn read_with<H: Hash32, S: Source, K: Sink>(
    alloc: Global,
    mut reader: Reader<H>,
    source: &mut S,
    sink: &mut K,
) -> u8
    ensures ends { (id : BlobId) → StandsFor H.digest id.0 reader [] → (words : List (List ℕ))
        → IsTask words (Read id) → Ends H.digest words
        (seen S.Source source.old source.new K.Sink sink.old sink.new) result }
    ensures later_source { S.faults source.old ≤ S.faults source.new }
    ensures later_sink { K.faults sink.old ≤ K.faults sink.new }
{
    match take_stream::<H, S>(alloc, &mut reader, source) {
        Ok(wrong) => {
            let answer = finish_stream::<H>(alloc, reader, wrong);
            write_answer(alloc, stream_answer::<H>(answer), sink)
        }
        Err(TakeError::ReadFault) => SOURCE_FAILED,
        Err(TakeError::TooLong) => finish(sink, b"too long\n", TOO_LONG),
        Err(TakeError::Memory) => NO_MEMORY,
    }
}

/// Writes the blob of this identifier, or why it is not there, from the envelopes that the source
/// gives.
pub fn read_stream<H: Hash32, S: Source, K: Sink>(
    alloc: Global,
    id: &BlobId,
    source: &mut S,
    sink: &mut K,
) -> u8
    ensures ends { (words : List (List ℕ)) → IsTask words (Read id.now) → Ends H.digest words
        (seen S.Source source.old source.new K.Sink sink.old sink.new) result }
    ensures later_source { S.faults source.old ≤ S.faults source.new }
    ensures later_sink { K.faults sink.old ≤ K.faults sink.new }
{
    match Reader::<H>::create(alloc, id) {
        Ok(reader) => read_with::<H, S, K>(alloc, reader, source, sink),
        Err(_) => NO_MEMORY,
    }
}
