//! Reading from envelopes.

ghost use Rattle.std.specs.Prelude.{ℕ, List, IfOk};
ghost use Rattle.wal_frame.specs.Stream.{IsStream};
ghost use Rattle.wal_reader.specs.Outcome.{IsAnswer};

use std::alloc::{AllocError, Global};
use wal_reader::{ReadAnswer, Reader};
use wal_shape::BlobId;
use wal_tree::Hash32;

/// What a read of the payloads of a stream of at most 134,217,728 bytes comes to.
pub(crate) fn read_sent<H: Hash32>(
    alloc: Global,
    id: &BlobId,
    sent: &[u8],
) -> Result<ReadAnswer, AllocError>
    ensures { IfOk result (λ answer. (payloads : List (List ℕ)) → IsStream payloads sent.now
        → IsAnswer H.digest id.now.0 payloads answer) }
{
    let mut reader = Reader::<H>::create(alloc, id)?;
    // Of a whole stream that is not too long no other error comes than want of memory.
    match reader.feed(alloc, sent) {
        Ok(()) => match reader.finish(alloc) {
            Ok(answer) => Ok(answer),
            Err(_) => Err(AllocError),
        },
        Err(_) => Err(AllocError),
    }
}
