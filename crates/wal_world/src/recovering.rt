//! A shard recovers its sliver of an axis from the replies of others.

ghost use Rattle.std.specs.Prelude.{◌≡◌, ℕ, ◌<◌, true, List, Some, IfOk, OnOk, IfSome, IfNone};
ghost use Rattle.wal_shape.specs.Metadata.{held_index};
ghost use Rattle.wal_shape.specs.MetaRef.{metadata_shown};
ghost use Rattle.wal_shape.specs.EncodingProof.{IsProof};
ghost use Rattle.wal_shape.specs.ProofRef.{proof_shown};
ghost use Rattle.wal_ledger.specs.Ledger.{is_live};
ghost use Rattle.wal_ledger.specs.Shards.{committee_size};
ghost use Rattle.wal_event.specs.Event as event;
ghost use Rattle.wal_recover.specs.declared.outcome.Recovered.TheVariants.{Short};
ghost use Rattle.wal_recover.specs.Recovery.{HasCommittedSliver};
ghost use Rattle.wal_reader.specs.Carried.{IsFirstBadProof, NoBadProof};
ghost use Rattle.wal_protocol.specs.State.{held, side_of, is_present, is_correct};
ghost use Rattle.wal_theorem.specs.Instance.{KnowsTwo, OwnOpeningsComeTo, rules_of};
ghost use Rattle.wal_world.specs.inside.Knowing.{AreKnown, IsOnly, RecoversInWorld};
ghost use Rattle.wal_world.specs.inside.Network.{IsNetwork, world_of};
ghost use Rattle.wal_world.specs.inside.Replies.{IsLike};
ghost use Rattle.wal_protocol.specs.Step.{AreReplies, RecoverStep, RecoverCollides};
ghost use Rattle.wal_world.specs.inside.Taken.{IsTaken};

use crate::knowing::{Known, known_in};
use crate::network::Network;
use crate::taken::Taken;
use std::alloc::{AllocError, Global};
use wal_event::{RecoverWord, Reply};
use wal_evidence::symbol_count;
use wal_reader::{bad_proof_in, openings_in};
use wal_recover::{Recovered, recover};
use wal_shape::{Axis, BlobId, MetaRef, Metadata, Payloads, ProofRef, Side};
use wal_tree::Hash32;

impl<H: Hash32> Network<H> {
    /// What a shard of a side knows of the metadata of a blob.
    fn known(
        &self,
        alloc: Global,
        side: Side,
        shard: u16,
        id: &BlobId,
        payloads: &Payloads,
    ) -> Result<Known, AllocError>
        requires network { IsNetwork self.now }
        requires present { is_present side (world_of self.now) ≡ true }
        requires shard { shard < committee_size (world_of self.now).log.f }
        ensures { IfOk result (AreKnown H.digest id.now
            (held (side_of side (world_of self.now)) shard id.now) payloads.now) }
    {
        let own = self.own_metadata(alloc, side, shard, id)?;
        known_in::<H>(alloc, id, own, payloads)
    }

    /// What the openings of a shard's sliver among the payloads come to.
    fn come_to(
        &mut self,
        alloc: Global,
        shard: u16,
        axis: Axis,
        id: &BlobId,
        m: MetaRef<'_>,
        payloads: &Payloads,
    ) -> Result<Recovered, AllocError>
        requires network { IsNetwork self.old }
        requires shard { shard < committee_size (world_of self.old).log.f }
        requires f { (metadata_shown m).f ≡ (world_of self.old).log.f }
        ensures network { IsNetwork self.new }
        ensures like { IsLike self.old self.new }
        ensures comes { IfOk result
            (OwnOpeningsComeTo H.digest id.now shard axis payloads.now (metadata_shown m.entry)) }
        ensures committed { IfOk result (HasCommittedSliver H.digest (metadata_shown m.entry) axis
            (held_index (metadata_shown m.entry).format (metadata_shown m.entry).f axis shard)) }
    {
        let index = m.held(axis, shard);
        let openings = openings_in(alloc, id, axis, index, payloads)?;
        let recovery = recover::<H>(alloc, &mut self.work, m, axis, index, &openings)?;
        Ok(recovery.outcome)
    }

    /// The first proof among the payloads that is bad for the metadata.
    fn bad_proof<'a>(
        &mut self,
        id: &BlobId,
        m: MetaRef<'_>,
        payloads: &'a Payloads,
    ) -> Option<ProofRef<'a>>
        requires network { IsNetwork self.old }
        requires f { (metadata_shown m).f ≡ (world_of self.old).log.f }
        ensures network { IsNetwork self.new }
        ensures like { IsLike self.old self.new }
        ensures first { IfSome result
            (λ p. IsFirstBadProof H.digest id.now.0
            (metadata_shown m.entry) payloads.now (proof_shown p)) }
        ensures proof { IfSome result (λ p. IsProof (proof_shown p)) }
        ensures none { IfNone result
            (NoBadProof H.digest id.now.0 (metadata_shown m.entry) payloads.now) }
    {
        bad_proof_in::<H>(&mut self.work, id, m, payloads)
    }

    /// The word of a recovery for which the openings are too few: a bad proof is kept.
    fn recover_short(
        &mut self,
        side: Side,
        shard: u16,
        axis: Axis,
        id: &BlobId,
        m: MetaRef<'_>,
        payloads: &Payloads,
        have: u32,
    ) -> Result<RecoverWord, AllocError>
        requires network { IsNetwork self.old }
        requires present { is_present side (world_of self.old) ≡ true }
        requires shard { shard < committee_size (world_of self.old).log.f }
        requires f { (metadata_shown m).f ≡ (world_of self.old).log.f }
        requires only { IsOnly H.digest id.now
            (held (side_of side (world_of self.old)) shard id.now) payloads.now (metadata_shown m) }
        requires comes { OwnOpeningsComeTo H.digest id.now shard
            axis payloads.now (metadata_shown m) (Short have) }
        ensures network { OnOk result (IsNetwork self.new) }
        ensures books { OnOk result (self.new.books ≡ self.old.books) }
        ensures word { IfOk result
            (λ word. RecoversInWorld H.digest (world_of self.old) side
            shard axis id.now payloads.now word (world_of self.new)) }
    {
        let need = u32::from(symbol_count(&m.shape(), axis));
        match self.bad_proof(id, m, payloads) {
            Some(p) => match self.keep_proof(side, shard, id, m, &p) {
                Ok(()) => Ok(RecoverWord::Proof),
                Err(e) => Err(e),
            },
            None => Ok(RecoverWord::Short { have, need }),
        }
    }

    /// The word of a recovery by what the openings come to: the sliver is kept, or a bad proof.
    fn recover_found(
        &mut self,
        side: Side,
        shard: u16,
        axis: Axis,
        id: &BlobId,
        m: MetaRef<'_>,
        payloads: &Payloads,
        found: Recovered,
    ) -> Result<RecoverWord, AllocError>
        requires network { IsNetwork self.old }
        requires present { is_present side (world_of self.old) ≡ true }
        requires shard { shard < committee_size (world_of self.old).log.f }
        requires f { (metadata_shown m).f ≡ (world_of self.old).log.f }
        requires only { IsOnly H.digest id.now
            (held (side_of side (world_of self.old)) shard id.now) payloads.now (metadata_shown m) }
        requires comes { OwnOpeningsComeTo H.digest id.now
            shard axis payloads.now (metadata_shown m) found }
        requires committed { HasCommittedSliver H.digest (metadata_shown m) axis
            (held_index (metadata_shown m).format (metadata_shown m).f axis shard) found }
        ensures network { OnOk result (IsNetwork self.new) }
        ensures books { OnOk result (self.new.books ≡ self.old.books) }
        ensures word { IfOk result
            (λ word. RecoversInWorld H.digest (world_of self.old) side
            shard axis id.now payloads.now word (world_of self.new)) }
    {
        match found {
            Recovered::Sliver(bytes) => {
                match self.keep_sliver(side, shard, id, m, axis, bytes.as_slice()) {
                    Ok(()) => Ok(RecoverWord::Sliver(bytes)),
                    Err(e) => Err(e),
                }
            }
            Recovered::Inconsistent(p) => match self.keep_proof(side, shard, id, m, &p.view()) {
                Ok(()) => Ok(RecoverWord::Inconsistent),
                Err(e) => Err(e),
            },
            Recovered::Short(have) => {
                self.recover_short(side, shard, axis, id, m, payloads, have)
            }
        }
    }

    /// The word of a recovery by the one metadata that is known.
    fn recover_by(
        &mut self,
        alloc: Global,
        side: Side,
        shard: u16,
        axis: Axis,
        id: &BlobId,
        m: &Metadata,
        payloads: &Payloads,
    ) -> Result<RecoverWord, AllocError>
        requires network { IsNetwork self.old }
        requires present { is_present side (world_of self.old) ≡ true }
        requires shard { shard < committee_size (world_of self.old).log.f }
        requires only { IsOnly H.digest id.now
            (held (side_of side (world_of self.old)) shard id.now) payloads.now m.now }
        ensures network { OnOk result (IsNetwork self.new) }
        ensures books { OnOk result (self.new.books ≡ self.old.books) }
        ensures word { IfOk result
            (λ word. RecoversInWorld H.digest (world_of self.old) side
            shard axis id.now payloads.now word (world_of self.new)) }
    {
        let m = m.view();
        if m.f() != self.f() {
            return Ok(RecoverWord::NoMetadata);
        }
        let found = self.come_to(alloc, shard, axis, id, m, payloads)?;
        self.recover_found(side, shard, axis, id, m, payloads, found)
    }

    /// A correct shard recovers a sliver of a live blob from these payloads.
    fn recover_from(
        &mut self,
        alloc: Global,
        side: Side,
        shard: u16,
        axis: Axis,
        id: &BlobId,
        payloads: &Payloads,
    ) -> Result<Taken<RecoverWord>, AllocError>
        requires network { IsNetwork self.old }
        requires present { is_present side (world_of self.old) ≡ true }
        requires shard { shard < committee_size (world_of self.old).log.f }
        ensures network { OnOk result (IsNetwork self.new) }
        ensures books { OnOk result (self.new.books ≡ self.old.books) }
        ensures word { IfOk result (IsTaken H.digest
            (λ word. RecoversInWorld H.digest (world_of self.old) side
            shard axis id.now payloads.now word (world_of self.new)
            × (KnowsTwo H.digest id.now
            (held (side_of side (world_of self.old)) shard id.now) payloads.now
            → ⊥))
            (KnowsTwo H.digest id.now
            (held (side_of side (world_of self.old)) shard id.now) payloads.now
            × (world_of self.new ≡ world_of self.old))) }
    {
        match self.known(alloc, side, shard, id, payloads)? {
            Known::Absent => Ok(Taken::Word(RecoverWord::NoMetadata)),
            Known::One(m) => match self.recover_by(alloc, side, shard, axis, id, &m, payloads) {
                Ok(word) => Ok(Taken::Word(word)),
                Err(e) => Err(e),
            },
            Known::Two(clash) => Ok(Taken::Collision(clash)),
        }
    }

    /// A shard of a side recovers its sliver of an axis from these replies.
    pub(crate) fn recover(
        &mut self,
        alloc: Global,
        side: Side,
        shard: u16,
        axis: Axis,
        id: &BlobId,
        replies: &[Reply],
    ) -> Result<Taken<RecoverWord>, AllocError>
        requires network { IsNetwork self.old }
        requires shard { shard < committee_size (world_of self.old).log.f }
        requires replies { event.AreRepliesWithin
            (committee_size (world_of self.old).log.f) replies.now }
        ensures network { OnOk result (IsNetwork self.new) }
        ensures books { OnOk result (self.new.books ≡ self.old.books) }
        ensures step { IfOk result (IsTaken H.digest
            (λ word. RecoverStep (rules_of H.digest (world_of self.old).log.f)
            (world_of self.old) side shard axis id.now replies.now word (world_of self.new))
            (RecoverCollides (rules_of H.digest (world_of self.old).log.f)
            (world_of self.old) side shard axis id.now replies.now
            × (world_of self.new ≡ world_of self.old))) }
    {
        if !self.present(side) {
            return Ok(Taken::Word(RecoverWord::Absent));
        }
        if self.faulty(side, shard) {
            return Ok(Taken::Word(RecoverWord::Ignored));
        }
        if !self.ledger().live(id) {
            return Ok(Taken::Word(RecoverWord::Unregistered));
        }
        let payloads = self.gather_symbols(alloc, id, axis, shard, replies)?;
        self.recover_from(alloc, side, shard, axis, id, &payloads)
    }
}
