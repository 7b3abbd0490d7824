//! What a command has to say of its input, and the one way in which it is written.

ghost use Rattle.std.specs.Prelude.{◌≡◌, ◌≤◌};
ghost use Rattle.wal_port.specs.Faults.{Rose};
ghost use Rattle.wal_run.specs.inside.Answers.{Refused, Tells, answer_status, answer_text};
ghost use Rattle.wal_run.specs.inside.Writing.{Performs};

use crate::finish::{NO_MEMORY, REJECTED, finish};
use crate::front::Front;
use crate::refusal::{Refusal, refusal_line, status_of};
use std::alloc::Global;
use wal_frame::OutBuf;
use wal_port::Sink;
use wal_shape::Bytes;

/// What a command comes to. None of it is copied to be written.
#[derive(Drop)]
pub enum Answer {
    /// Bytes as they are: a blob, a member of a bundle, or lines of text.
    Bytes(Bytes),
    /// The image of a disk, which is its front.
    Image(Front),
    /// The envelope of a sliver.
    Sliver(OutBuf),
    /// The envelope of the proof that a sliver was encoded badly.
    Proof(OutBuf),
}

/// The status that tells an answer.
fn answer_status(answer: &Answer) -> u8
    ensures { result ≡ answer_status answer.now }
{
    match answer {
        Answer::Bytes(_) | Answer::Image(_) | Answer::Sliver(_) => 0,
        Answer::Proof(_) => REJECTED,
    }
}

/// Lends the text of an answer.
fn answer_text(answer: &Answer) -> &[u8]
    ensures { result.now ≡ answer_text answer.now }
{
    match answer {
        Answer::Bytes(bytes) => bytes.as_slice(),
        Answer::Image(image) => image.bytes(),
        Answer::Sliver(envelope) | Answer::Proof(envelope) => envelope.bytes(),
    }
}

/// Writes the line of a refusal, and gives its status.
pub fn refuse<K: Sink>(alloc: Global, refusal: &Refusal, sink: &mut K) -> u8
    ensures performs { Performs (Refused refusal.now) (K.written sink.old)
        (K.written sink.new) (Rose (K.faults sink.old) (K.faults sink.new)) result }
    ensures later { K.faults sink.old ≤ K.faults sink.new }
{
    if let Refusal::Memory = refusal {
        return NO_MEMORY;
    }
    match refusal_line(alloc, refusal) {
        Ok(line) => finish(sink, &line, status_of(refusal)),
        Err(_) => NO_MEMORY,
    }
}

/// Writes what a command has to say, and gives its status.
pub fn write_answer<K: Sink>(alloc: Global, answer: Result<Answer, Refusal>, sink: &mut K) -> u8
    ensures performs { Performs (Tells answer) (K.written sink.old)
        (K.written sink.new) (Rose (K.faults sink.old) (K.faults sink.new)) result }
    ensures later { K.faults sink.old ≤ K.faults sink.new }
{
    match answer {
        Ok(answer) => finish(sink, answer_text(&answer), answer_status(&answer)),
        Err(refusal) => refuse(alloc, &refusal, sink),
    }
}
