//! Lines: the outcome of each event.

use wal_shape::{Axis, BlobId, Bytes};

/// The outcome of a registration.
#[derive(Clone, Copy, Debug, PartialEq, Eq, Drop)]
pub enum RegisterWord {
    /// The blob is kept until this epoch begins.
    Until(u32),
    /// That epoch has begun already.
    RefusedPast,
    /// A longer time cannot be had while the epoch changes.
    RefusedMoving,
}

/// The outcome of a write.
#[derive(Debug, Drop)]
pub enum WriteWord {
    /// So many of the shards that it was sent to hold it now, and the blob's bytes.
    Stored { count: u32, bytes: Bytes },
}

/// The outcome of bytes that are sent to a shard.
#[derive(Clone, Copy, Debug, PartialEq, Eq, Drop)]
pub enum SendWord {
    /// There is no such committee.
    Absent,
    /// The shard is faulty.
    Ignored,
    /// The bytes are no metadata, sliver or proof.
    Malformed,
    /// The blob is not live.
    Unregistered,
    /// The shard has no metadata of the blob.
    NoMetadata,
    /// It is not this shard's, or does not verify.
    Unverified,
    /// The shard holds it already.
    Held,
    /// The shard holds it now.
    Stored,
}

/// The outcome of an acknowledgement.
#[derive(Clone, Copy, Debug, PartialEq, Eq, Drop)]
pub enum AckWord {
    /// The blob is not live.
    Unregistered,
    /// The blob is not kept beyond the writing epoch.
    Expires,
    /// A shard of the node does not hold its slivers.
    Declined,
    /// The shard was counted before.
    Already,
    /// So many shards count, too few for a certificate.
    Counted(u32),
    /// So many shards count, and the blob is certified.
    Certified(u32),
}

/// The outcome of an attestation that a blob is badly encoded.
#[derive(Clone, Copy, Debug, PartialEq, Eq, Drop)]
pub enum AttestWord {
    /// The blob is not live.
    Unregistered,
    /// The blob is not kept beyond the writing epoch.
    Expires,
    /// A shard of the node holds no proof.
    Declined,
    /// The shard was counted before.
    Already,
    /// So many shards count, too few for a verdict.
    Counted(u32),
    /// So many shards count, and the blob is invalid.
    Invalid(u32),
}

/// The outcome of a read.
#[derive(Debug, Drop)]
pub enum ReadWord {
    /// The blob's bytes.
    Bytes(Bytes),
    /// The blob is badly encoded.
    Reject,
    /// The number of held slivers, and how many are needed.
    Short { have: u32, need: u32 },
    /// No payload is a metadata of the blob.
    NoMetadata,
}

/// The outcome of recovering a sliver.
#[derive(Debug, Drop)]
pub enum RecoverWord {
    /// There is no such committee.
    Absent,
    /// The shard is faulty.
    Ignored,
    /// The blob is not live.
    Unregistered,
    /// No metadata of the blob fits.
    NoMetadata,
    /// The sliver, which the shard holds now.
    Sliver(Bytes),
    /// The symbols show that the blob is badly encoded, and the shard holds the proof.
    Inconsistent,
    /// A proof that the blob is badly encoded was among the replies, and the shard holds it.
    Proof,
    /// The number of symbols that verify, and how many are needed.
    Short { have: u32, need: u32 },
}

/// The outcome of forgetting.
#[derive(Clone, Copy, Debug, PartialEq, Eq, Drop)]
pub enum ForgetWord {
    /// There is no such committee.
    Absent,
    /// The shard is faulty.
    Ignored,
    /// The shard may not forget it.
    Declined,
    /// The slivers are gone.
    Done,
}

/// The outcome of beginning a change of the epoch.
#[derive(Clone, Copy, Debug, PartialEq, Eq, Drop)]
pub enum BeginWord {
    /// It changes to this epoch.
    Epoch(u32),
    /// The epoch is changing already.
    RefusedMoving,
    /// There is no later epoch.
    RefusedLastEpoch,
}

/// The outcome of a shard's readiness.
#[derive(Clone, Copy, Debug, PartialEq, Eq, Drop)]
pub enum ReadyWord {
    /// The epoch is not changing.
    RefusedNotMoving,
    /// A shard of the node does not hold what it must.
    Declined,
    /// The shard was counted before.
    Already,
    /// So many shards are ready.
    Counted(u32),
}

/// The outcome of finishing the change of the epoch.
#[derive(Clone, Copy, Debug, PartialEq, Eq, Drop)]
pub enum FinishWord {
    /// This epoch has begun.
    Epoch(u32),
    /// So many shards are ready, which are too few.
    Waiting(u32),
    /// The epoch is not changing.
    RefusedNotMoving,
}

/// The outcome of asking for a certificate.
#[derive(Clone, Copy, Debug, PartialEq, Eq, Drop)]
pub enum CertificateWord {
    /// The blob is certified by so many shards in this epoch.
    Certified { epoch: u32, count: u32 },
    /// So many shards count so far.
    Pending(u32),
}

/// Who holds a blob.
#[derive(Clone, Copy, Debug, PartialEq, Eq, Drop)]
pub enum HoldersWord {
    /// So many correct shards.
    Count(u32),
}

/// The outcome of one event.
#[derive(Debug, Drop)]
pub enum Line {
    /// A blob was to be kept.
    Register {
        id: BlobId,
        word: RegisterWord,
    },
    /// A blob was written.
    Write {
        id: BlobId,
        word: WriteWord,
    },
    /// Bytes were sent to a shard.
    Send {
        shard: u16,
        word: SendWord,
    },
    /// A shard acknowledged a blob.
    Ack {
        shard: u16,
        id: BlobId,
        word: AckWord,
    },
    /// A shard attested that a blob is badly encoded.
    Attest {
        shard: u16,
        id: BlobId,
        word: AttestWord,
    },
    /// A blob was read.
    Read {
        id: BlobId,
        word: ReadWord,
    },
    /// A shard recovered its sliver of this axis.
    Recover {
        shard: u16,
        axis: Axis,
        id: BlobId,
        word: RecoverWord,
    },
    /// A shard forgot a blob.
    Forget {
        shard: u16,
        id: BlobId,
        word: ForgetWord,
    },
    /// The epoch began to change.
    Begin {
        word: BeginWord,
    },
    /// A shard of the next committee was ready.
    Ready {
        shard: u16,
        word: ReadyWord,
    },
    /// The change of the epoch was to end.
    Finish {
        word: FinishWord,
    },
    /// A certificate was asked for.
    Certificate {
        id: BlobId,
        word: CertificateWord,
    },
    /// It was asked who holds a blob.
    Holders {
        id: BlobId,
        word: HoldersWord,
    },
    /// Two texts with one digest turned up, and the run ends.
    Collision {
        left: Bytes,
        right: Bytes,
    },
}
