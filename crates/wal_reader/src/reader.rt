//! Reading a stream that comes in pieces.

ghost use Rattle.std.specs.Prelude.{◌≡◌, ◌↔◌, ◌++◌, ℕ, List, [], Some, Err, IsTrue, IfOk};
ghost use Rattle.wal_reader.specs.Intake.{IsCut};
ghost use Rattle.wal_reader.specs.Settled.{IsSettled};
ghost use Rattle.wal_reader.specs.Standing.{Feeds, FinishesStream, IsSettledReader, StandsFor};
ghost use Rattle.wal_reader.specs.Standing.{fault_of, finish_error};
ghost use Rattle.wal_reader.specs.declared.errors.FeedError.{FeedError};
ghost use Rattle.wal_reader.specs.declared.errors.FeedError.TheVariants as feed;
ghost use Rattle.wal_reader.specs.declared.errors.FinishError.TheVariants as finish;

use crate::errors::{FeedError, FinishError, finish_error};
use crate::intake::Intake;
use crate::outcome::ReadAnswer;
use std::alloc::{AllocError, Global};
use std::marker::Model;
use wal_shape::BlobId;
use wal_tree::Hash32;

/// Reads a blob from a stream of envelopes that comes in pieces, as `read` does from its payloads.
///
/// Once a metadata and as many slivers as are needed are there it is settled: no further piece
/// wants memory, and only another metadata changes the answer. So it is once two metadata differ,
/// and then nothing does.
#[derive(Drop)]
pub struct Reader<H: Hash32> {
    intake: Intake<H>,
    failed: Option<FeedError>,
}

impl<H: Hash32> Model for Reader<H> {
    ghost use Rattle.std.specs.Prelude.{◌≡◌, None};
    ghost use Rattle.wal_reader.specs.inside.Intake.{IsSound, shown};
    ghost use Rattle.wal_reader.specs.Standing.{ReaderState};

    ghost Value = { ReaderState };

    ghost view = { λ r. record { intake = shown r.intake; failed = r.failed } };

    ghost invariant = { λ r. r.failed ≡ None → IsSound (shown r.intake) };
}

impl<H: Hash32> Reader<H> {
    /// A reader of an empty stream. Takes the memory for the longest metadata.
    pub fn create(alloc: Global, id: &BlobId) -> Result<Reader<H>, AllocError>
        ensures { IfOk result (λ r. StandsFor H.digest id.now.0 r []) }
    {
        let intake = Intake::create(alloc, id)?;
        Ok(Reader {
            intake,
            failed: None,
        })
    }

    /// Takes the next piece of the stream. Once a piece was refused, so is each later one.
    pub fn feed(&mut self, alloc: Global, piece: &[u8]) -> Result<(), FeedError>
        ensures failed { (e : FeedError) → self.old.failed ≡ Some e → result ≡ Err e }
        ensures fault { self.new.failed ≡ fault_of result }
        ensures feeds { (id : List ℕ) (stream : List ℕ) → StandsFor H.digest id self.old stream
            → Feeds H.digest id self.new (stream ++ piece.now) result }
        ensures memory { IsSettledReader self.old → result ≡ Err feed.Memory → ⊥ }
    {
        if let Some(error) = self.failed {
            return Err(error);
        }
        match self.intake.take(alloc, piece) {
            Ok(()) => Ok(()),
            Err(error) => {
                self.failed = Some(error);
                Err(error)
            }
        }
    }

    /// Whether no more than another metadata can change the answer.
    pub fn settled(&self) -> bool
        ensures value { IsTrue result ↔ IsSettledReader self.now }
        ensures settled { (id : List ℕ) (stream : List ℕ) → StandsFor H.digest id self.now stream
            → (payloads : List (List ℕ)) (front rest : List ℕ) → IsCut payloads front rest stream
            → (IsTrue result ↔ IsSettled H.digest id payloads) }
    {
        match self.failed {
            Some(_) => false,
            None => self.intake.is_settled(),
        }
    }

    /// The answer of `read` over the payloads of the stream.
    pub fn finish(self, alloc: Global) -> Result<ReadAnswer, FinishError>
        ensures failed { (e : FeedError) → self.failed ≡ Some e → result ≡ Err (finish_error e) }
        ensures finishes { (id : List ℕ) (stream : List ℕ) → StandsFor H.digest id self stream
            → FinishesStream H.digest id stream result }
        ensures long { result ≡ Err finish.TooLong → self.failed ≡ Some feed.TooLong }
    {
        let Reader { intake, failed } = self;
        match failed {
            Some(error) => Err(finish_error(error)),
            None => intake.finish(alloc),
        }
    }
}
