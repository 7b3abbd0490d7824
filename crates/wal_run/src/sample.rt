//! The command that sums up the run of the sample schedule of a number.

ghost use Rattle.std.specs.Prelude.{◌≡◌, [], IfOk};
ghost use Rattle.wal_run.specs.Command.{IsResult};
ghost use Rattle.wal_run.specs.Sampling.{sampling, summary_text};
ghost use Rattle.wal_run.specs.inside.Answers.{Says};
ghost use Rattle.wal_run.specs.inside.Sampling.{IsSumText};

use crate::answer::Answer;
use crate::lines::add_number;
use crate::refusal::Refusal;
use std::alloc::{AllocError, Global};
use wal_schedule::sample;
use wal_shape::Bytes;
use wal_tree::Hash32;
use wal_world::{Summary, Summed, summarize};

/// The six lines of a summary.
fn summary_lines(alloc: Global, summary: &Summary) -> Result<Vec<u8>, AllocError>
    ensures { IfOk result (λ text. text.items ≡ summary_text summary.now) }
{
    let mut text = Vec::new(alloc);
    add_number(&mut text, b"events ", u64::from(summary.events))?;
    add_number(&mut text, b"certified ", u64::from(summary.certified))?;
    add_number(&mut text, b"reads ", u64::from(summary.reads))?;
    add_number(&mut text, b"bytes ", summary.bytes)?;
    add_number(&mut text, b"recovered ", u64::from(summary.recovered))?;
    add_number(
        &mut text,
        b"least holders ",
        u64::from(summary.least_holders),
    )?;
    Ok(text)
}

/// What the run of a sample schedule comes to.
fn summed_answer(alloc: Global, summed: Summed) -> Result<Answer, Refusal>
    ensures { Says result (IsSumText summed) }
{
    match summed {
        Summed::Whole(summary) => {
            let text = summary_lines(alloc, &summary)?;
            Ok(Answer::Bytes(Bytes::from_vec(text)))
        }
        Summed::Collision(collision) => Err(Refusal::Collision(collision)),
    }
}

/// The summary of the run of the sample schedule of a number, or the collision with which it ends.
pub fn sum_up<H: Hash32>(alloc: Global, number: u64) -> Result<Answer, Refusal>
    ensures { Says result (IsResult H.digest (sampling H.digest number) []) }
{
    let schedule = sample::<H>(alloc, number)?;
    let summed = summarize::<H>(alloc, &schedule)?;
    summed_answer(alloc, summed)
}
