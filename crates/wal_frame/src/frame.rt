//! Frames whose bytes are lent, and what is wrong with bytes that are none.

ghost use Rattle.std.specs.Prelude.{◌≡◌};
ghost use Rattle.wal_frame.specs.Reading.{frame_fault};

use wal_shape::{Axis, BlobId, BodyFault, MetaRef, OpeningRef, ProofRef, SliverRef};

/// A message of the store whose bytes are lent.
#[derive(Clone, Copy, Debug)]
pub enum FrameRef<'a> {
    /// The metadata of a blob, of the first format.
    Metadata(MetaRef<'a>),
    /// A sliver of the blob of this identifier.
    Sliver {
        id: BlobId,
        sliver: SliverRef<'a>,
    },
    /// An opening of the sliver of this axis and index.
    Opening {
        id: BlobId,
        axis: Axis,
        index: u16,
        opening: OpeningRef<'a>,
    },
    /// A proof of bad encoding.
    Proof {
        id: BlobId,
        body: ProofRef<'a>,
    },
    /// The metadata of a blob, of the second format.
    Metadata2(MetaRef<'a>),
    /// A request for the parts of the blob that a shard holds.
    Read {
        id: BlobId,
    },
    /// A request for symbols of the sliver of this axis and index.
    Symbol {
        id: BlobId,
        axis: Axis,
        index: u16,
    },
    /// A request to acknowledge the blob.
    Ack {
        id: BlobId,
    },
    /// A request to attest that the blob is badly encoded.
    Attest {
        id: BlobId,
    },
    /// A request to forget the blob's slivers.
    Forget {
        id: BlobId,
    },
    /// An answer: its code and two numbers that the code gives a meaning.
    Answer {
        code: u8,
        a: u32,
        b: u32,
    },
    /// Two texts of one digest.
    Clash {
        left: &'a [u8],
        right: &'a [u8],
    },
    /// The ledger's entry that the blob is kept until this epoch begins.
    RegisterEntry {
        id: BlobId,
        until: u32,
    },
    /// The ledger's entry that the shard holds the blob.
    AckEntry {
        shard: u16,
        id: BlobId,
    },
    /// The ledger's entry that the shard attests that the blob is badly encoded.
    AttestEntry {
        shard: u16,
        id: BlobId,
    },
}

/// Why bytes are no frame: the first fault from left to right.
#[derive(Clone, Copy, Debug, PartialEq, Eq)]
pub enum FrameError {
    /// A field, or the run of bytes that a field announces, is not all there; also no bytes at all.
    Truncated,
    /// The first byte is no kind.
    BadKind,
    /// A field is out of range: its place, counted from the kind, which is at 0.
    BadField(u64),
    /// Bytes follow the frame.
    Trailing,
}

/// The fault of a field whose place is counted from the kind.
impl From<BodyFault> for FrameError {
    ghost from_gives = { λ fault result. result ≡ frame_fault fault };

    fn from(fault: BodyFault) -> FrameError {
        match fault {
            BodyFault::Truncated => FrameError::Truncated,
            BodyFault::BadField(place) => FrameError::BadField(u64::from(place)),
        }
    }
}

/// What bytes begin with.
#[derive(Clone, Copy, Debug)]
pub enum Envelope<'a> {
    /// A whole envelope: its sender, its payload, and the bytes after it.
    Whole {
        sender: u16,
        payload: &'a [u8],
        rest: &'a [u8],
    },
    /// No bytes, or the front of an envelope that is not all there.
    Part,
    /// A byte that begins no envelope.
    Wrong,
}
