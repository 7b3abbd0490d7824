//! A cache of checked blobs, and gets over it.

ghost use Rattle.std.specs.Prelude.{◌≡◌, ◌↔◌, ◌≤◌, ◌++◌, ◌∷◌, ℕ, List, [], length, is_some};
ghost use Rattle.std.specs.Prelude.{option_map, true, None, Ok, IfOk, IfSome, OnErr, IsTrue};
ghost use Rattle.wal_shape.specs.Identifiers.{id_eq};
ghost use Rattle.wal_tree.specs.Collision.{IsCollision};
ghost use Rattle.wal_frame.specs.Stream.{IsStream};
ghost use Rattle.wal_reader.specs.Outcome.{IsAnswer};
ghost use Rattle.wal_gateway.specs.declared.answer.GetAnswer.{GetAnswer as AnswerOf};
ghost use Rattle.wal_gateway.specs.Getting.{AnswersGet, AnswersAll, Cache, Get, asked, entered};
ghost use Rattle.wal_gateway.specs.Getting.{kept_blob, range_of};
ghost use Rattle.wal_gateway.specs.Gotten.{AreOnlyAnswers, IsOnlyAnswer};
ghost use Rattle.wal_gateway.specs.Kept.{AreDigestedForKept, ContradictsKept, IsChecked};
ghost use Rattle.wal_gateway.specs.Kept.{IsFreshOrContrary, IsSoundCache};
ghost use Rattle.wal_gateway.specs.Ends.{EndsGet};

use crate::answer::{Found, GetAnswer};
use crate::checked::CheckedBlob;
use crate::missed::{missed, shape_in};
use crate::range::range_in;
use crate::sent::read_sent;
use lru::LruCache;
use std::alloc::{AllocError, Global};
use std::marker::{Model, PhantomData};
use std::num::NonZeroUsize;
use wal_evidence::Evidence;
use wal_extract::blob_and_evidence;
use wal_reader::{Outcome, ReadAnswer, read};
use wal_shape::{BlobId, Collision, Payloads};
use wal_tree::Hash32;

/// Byte ranges of blobs from what shards sent. A blob that was read and checked once is kept, and
/// served from here until others push it out, the one last whose use is longest ago.
#[derive(Drop)]
pub struct Gateway<H: Hash32> {
    blobs: LruCache<BlobId, CheckedBlob>,
    digest: PhantomData<H>,
}

impl<H: Hash32> Model for Gateway<H> {
    ghost use Rattle.std.specs.Prelude.{◌≤◌};
    ghost use Rattle.wal_gateway.specs.Getting.{Cache};
    ghost use Rattle.wal_gateway.specs.Kept.{AreChecked};

    ghost Value = { Cache };

    ghost view = { λ g. record { pairs = g.blobs.entries; capacity = g.blobs.cap } };

    ghost invariant = { λ g. AreChecked H.digest g.blobs.entries × (1 ≤ g.blobs.cap) };
}

impl<H: Hash32> Gateway<H> {
    /// An empty list that takes so many blobs, from 1 to 64.
    pub fn create(alloc: Global, capacity: u32) -> Result<Gateway<H>, AllocError>
        requires some { 1 ≤ capacity }
        requires most { capacity ≤ 64 }
        ensures { IfOk result (λ g. g ≡ record { pairs = []; capacity = capacity }) }
    {
        match NonZeroUsize::new(capacity as usize) {
            Some(room) => Ok(Gateway {
                blobs: LruCache::new(alloc, room)?,
                digest: PhantomData,
            }),
            None => unreachable!(),
        }
    }

    /// The number of blobs in the list.
    pub fn len(&self) -> usize
        ensures value { result ≡ length self.now.pairs }
        ensures sound { IsSoundCache H.digest self.now }
    {
        self.blobs.len()
    }

    /// Whether the list has no blob.
    pub fn is_empty(&self) -> bool
        ensures { IsTrue result ↔ self.now.pairs ≡ [] }
    {
        self.blobs.is_empty()
    }

    /// Whether the identifier is in the list.
    pub fn contains(&self, id: &BlobId) -> bool
        ensures { result ≡ is_some (kept_blob self.now id.now) }
    {
        self.blobs.contains(id)
    }

    /// The range in the blob of an identifier, if that is in the list.
    fn kept_range(
        &self,
        alloc: Global,
        id: &BlobId,
        from: u32,
        size: u32,
    ) -> Result<Option<Found>, AllocError>
        ensures { IfOk result (λ found. found
            ≡ option_map (λ blob. range_of from size blob.bytes) (kept_blob self.now id.now)) }
    {
        match self.blobs.peek(id) {
            Some(blob) => Ok(Some(range_in(alloc, blob, from, size)?)),
            None => Ok(None),
        }
    }

    /// Takes a checked blob into the list, after the range in it was taken.
    fn enter(
        &mut self,
        alloc: Global,
        id: &BlobId,
        blob: CheckedBlob,
        from: u32,
        size: u32,
    ) -> Result<Found, AllocError>
        requires new { kept_blob self.old id.now ≡ None }
        requires checked { IsChecked H.digest id.now blob }
        ensures entered { IfOk result (λ found. (found ≡ range_of from size blob.bytes)
            × (self.new ≡ entered self.old id.now blob)) }
        ensures memory { OnErr result (self.new ≡ self.old) }
    {
        let found = range_in(alloc, &blob, from, size)?;
        self.blobs.put(*id, blob)?;
        Ok(found)
    }

    /// A get of an identifier that is in the list, if it is; the blob is the one last used then.
    fn hit(
        &mut self,
        alloc: Global,
        id: &BlobId,
        from: u32,
        size: u32,
    ) -> Result<Option<GetAnswer>, AllocError>
        ensures hit { IfOk result (λ found. IfSome found (λ answer. (payloads : List (List ℕ))
            → EndsGet H.digest self.old (asked id.now from size payloads) (Ok answer) self.new)) }
        ensures none { IfOk result
            (λ found. found ≡ None → (kept_blob self.old id.now ≡ None) × (self.new ≡ self.old)) }
        ensures memory { OnErr result (self.new ≡ self.old) }
    {
        match self.kept_range(alloc, id, from, size)? {
            Some(found) => {
                self.blobs.promote(id);
                Ok(Some(GetAnswer { hit: true, found }))
            }
            None => Ok(None),
        }
    }

    /// A get of an identifier that is not in the list, by what a read of the payloads gives.
    fn miss(
        &mut self,
        alloc: Global,
        id: &BlobId,
        from: u32,
        size: u32,
        read: ReadAnswer,
    ) -> Result<GetAnswer, AllocError>
        requires none { kept_blob self.old id.now ≡ None }
        requires read { (payloads : List (List ℕ)) × IsAnswer H.digest id.now.0 payloads read }
        ensures { (payloads : List (List ℕ)) → IsAnswer H.digest id.now.0 payloads read
            → EndsGet H.digest self.old (asked id.now from size payloads) result self.new }
    {
        let ReadAnswer { outcome, evidence } = read;
        match outcome {
            Outcome::Bytes(bytes) => {
                let shape = shape_in(&evidence);
                let blob = CheckedBlob { shape, bytes };
                let found = self.enter(alloc, id, blob, from, size)?;
                Ok(GetAnswer { hit: false, found })
            }
            other => Ok(missed(other)),
        }
    }

    /// A get, in one contract.
    fn serve(
        &mut self,
        alloc: Global,
        id: &BlobId,
        from: u32,
        size: u32,
        payloads: &Payloads,
    ) -> Result<GetAnswer, AllocError>
        ensures { EndsGet H.digest self.old (asked id.now from size payloads.now) result self.new }
    {
        match self.hit(alloc, id, from, size)? {
            Some(answer) => Ok(answer),
            None => {
                let read = read::<H>(alloc, id, payloads)?;
                self.miss(alloc, id, from, size, read)
            }
        }
    }

    /// A get by the envelopes that shards sent for it, one after the other. No more of them is kept
    /// than can matter, and nothing on a hit.
    pub fn get_sent(
        &mut self,
        alloc: Global,
        id: &BlobId,
        from: u32,
        size: u32,
        sent: &[u8],
    ) -> Result<GetAnswer, AllocError>
        requires few { length sent.now ≤ 134217728 }
        requires stream { (payloads : List (List ℕ)) × IsStream payloads sent.now }
        ensures { (payloads : List (List ℕ)) → IsStream payloads sent.now
            → EndsGet H.digest self.old (asked id.now from size payloads) result self.new }
    {
        match self.hit(alloc, id, from, size)? {
            Some(answer) => Ok(answer),
            None => {
                let read = read_sent::<H>(alloc, id, sent)?;
                self.miss(alloc, id, from, size, read)
            }
        }
    }

    /// So many bytes of a blob from a place on, by what shards sent for it.
    ///
    /// If the identifier is in the list, the answer is from the blob there, which becomes the
    /// one last used, and the payloads are not looked at. Else they are read, and a blob that they
    /// give enters the list, also if the range is not in it; the one that was used before all
    /// others goes, if the list is full.
    pub fn get(
        &mut self,
        alloc: Global,
        id: &BlobId,
        from: u32,
        size: u32,
        payloads: &Payloads,
    ) -> Result<GetAnswer, AllocError>
        ensures answers { IfOk result (λ answer.
            AnswersGet H.digest self.old (asked id.now from size payloads.now) answer self.new) }
        // There is no other answer; the texts of a collision are not compared.
        ensures only { IfOk result (λ answer.
            IsOnlyAnswer H.digest self.old (asked id.now from size payloads.now) answer self.new) }
        ensures hit { IfOk result (λ answer. answer.hit ≡ is_some (kept_blob self.old id.now)) }
        ensures memory { OnErr result (self.new ≡ self.old) }
        // So it goes on with every list of gets that led here.
        ensures answers_all { (start : Cache) (gets : List Get) (answers : List AnswerOf)
            → AnswersAll H.digest start gets answers self.old
            → IfOk result
            (λ answer. AnswersAll H.digest start (gets ++ asked id.now from size payloads.now ∷ [])
            (answers ++ answer ∷ []) self.new) }
        ensures only_all { (start : Cache) (gets : List Get) (answers : List AnswerOf)
            → AreOnlyAnswers H.digest start gets answers self.old
            → IfOk result
            (λ answer. AreOnlyAnswers H.digest start
            (gets ++ asked id.now from size payloads.now ∷ []) (answers ++ answer ∷ []) self.new) }
        // Where a read of the payloads is a verdict a hit is as good, or two texts with one digest
        // can be shown.
        ensures fresh { IfOk result (λ answer. answer.hit ≡ true
            → IsFreshOrContrary H.digest self.new (asked id.now from size payloads.now) answer) }
    {
        self.serve(alloc, id, from, size, payloads)
    }

    /// Two texts with one digest, from the blob in the list and evidence for its identifier that
    /// does not lead to its bytes.
    ///
    /// It fails only for want of memory.
    pub fn collision(
        &self,
        alloc: Global,
        id: &BlobId,
        e: &Evidence,
    ) -> Result<Collision, AllocError>
        requires { ContradictsKept H.digest self.now id.now e.now }
        ensures collision { IfOk result (λ c. IsCollision H.digest c.left c.right) }
        // Of two metadata the left text is the kept blob's, and of slivers and openings it is the
        // evidence's.
        ensures texts { IfOk result
            (λ c. AreDigestedForKept H.digest self.now id.now e.now c.left c.right) }
    {
        match self.blobs.peek(id) {
            Some(blob) => { blob_and_evidence::<H>(alloc, &blob.shape, blob.bytes.as_slice(), e) }
            None => unreachable!(),
        }
    }
}
