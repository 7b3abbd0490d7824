//! Events: what happens in the network, one after the other, each by one actor.

ghost use Rattle.std.specs.Prelude.{◌≡◌, IfOk};

use std::alloc::{AllocError, Global};
use std::marker::Model;
use wal_shape::{Axis, BlobId, Bytes, Format, Shards, Side};

/// What one shard answers to a reader.
#[derive(Debug, Drop)]
pub enum Reply {
    /// What this shard of that side truly answers.
    True { side: Side, shard: u16 },
    /// Any bytes, as one payload: what a faulty shard says.
    Bytes(Bytes),
}

/// One action of one actor.
#[derive(Debug, Drop)]
pub enum Event {
    /// The blob is to be kept until that epoch begins.
    Register {
        id: BlobId,
        until: u32,
    },
    /// An honest writer sends the blob to these shards.
    Write {
        blob: Bytes,
        to: Shards,
    },
    /// Anyone sends these bytes to the shard of that side.
    Send {
        at: Side,
        shard: u16,
        bytes: Bytes,
    },
    /// The shard says that it holds its slivers of the blob.
    Ack {
        shard: u16,
        id: BlobId,
    },
    /// The shard says that the blob is badly encoded.
    Attest {
        shard: u16,
        id: BlobId,
    },
    /// A reader has these replies for the blob.
    Read {
        id: BlobId,
        replies: Replies,
    },
    /// The shard of that side has these replies for its sliver of this axis.
    Recover {
        at: Side,
        shard: u16,
        axis: Axis,
        id: BlobId,
        replies: Replies,
    },
    /// The shard of that side drops its slivers of the blob.
    Forget {
        at: Side,
        shard: u16,
        id: BlobId,
    },
    /// The epoch begins to change, to a committee with these owners and these faulty shards. The
    /// shards in `stays` keep what they hold, where their nodes are the same.
    Begin {
        owners: Shards,
        faulty: Shards,
        stays: Shards,
    },
    /// The shard of the next committee says that it holds what it must.
    Ready {
        shard: u16,
    },
    /// The next epoch begins, where enough shards are ready.
    Finish,
    /// Someone asks for the certificate of the blob.
    Certificate {
        id: BlobId,
    },
    /// Someone counts the correct shards that hold the blob.
    Holders {
        id: BlobId,
    },
}

impl Reply {
    /// An equal reply, in memory of its own.
    pub fn duplicate(&self, alloc: Global) -> Result<Reply, AllocError>
        ensures { IfOk result (λ copy. copy ≡ self.now) }
    {
        match self {
            Reply::True { side, shard } => Ok(Reply::True {
                side: *side,
                shard: *shard,
            }),
            Reply::Bytes(bytes) => Ok(Reply::Bytes(bytes.duplicate(alloc)?)),
        }
    }
}

/// A list of replies.
#[derive(Debug, Drop)]
pub struct Replies {
    items: Vec<Reply>,
}

impl Model for Replies {
    ghost use Rattle.std.specs.Prelude.{List};
    ghost use Rattle.wal_event.specs.declared.event.Reply.{Reply};

    ghost Value = { List Reply };

    ghost view = { λ r. r.items.items };
}

impl Replies {
    /// The replies of a vector. Takes no memory.
    pub fn from_vec(items: Vec<Reply>) -> Replies
        ensures { result ≡ items.items }
    {
        Replies { items }
    }

    /// The vector that has these replies. Takes no memory.
    pub fn into_vec(self) -> Vec<Reply>
        ensures { result.items ≡ self }
    {
        let Replies { items } = self;
        items
    }

    /// Lends the replies.
    pub fn as_slice(&self) -> &[Reply]
        ensures { result.now ≡ self.now }
    {
        &self.items
    }

    /// An equal list, in memory of its own.
    pub fn duplicate(&self, alloc: Global) -> Result<Replies, AllocError>
        ensures { IfOk result (λ copy. copy ≡ self.now) }
    {
        let mut items = Vec::with_capacity(alloc, self.items.len())?;
        for reply in &self.items {
            items.push(reply.duplicate(alloc)?)?;
        }
        Ok(Replies { items })
    }
}

/// A list of events, in the order in which they happen.
#[derive(Debug, Drop)]
pub struct Events {
    items: Vec<Event>,
}

impl Model for Events {
    ghost use Rattle.std.specs.Prelude.{List};
    ghost use Rattle.wal_event.specs.declared.event.Event.{Event};

    ghost Value = { List Event };

    ghost view = { λ e. e.items.items };
}

impl Events {
    /// The events of a vector. Takes no memory.
    pub fn from_vec(items: Vec<Event>) -> Events
        ensures { result ≡ items.items }
    {
        Events { items }
    }

    /// The vector that has these events. Takes no memory.
    pub fn into_vec(self) -> Vec<Event>
        ensures { result.items ≡ self }
    {
        let Events { items } = self;
        items
    }

    /// Lends the events.
    pub fn as_slice(&self) -> &[Event]
        ensures { result.now ≡ self.now }
    {
        &self.items
    }
}

/// A run of the network that is to be: the first epoch with its committee, and the events.
#[derive(Debug, Drop)]
pub struct Schedule {
    /// The most faulty shards of a committee for which all is safe: the committee has `3f + 1`
    /// shards.
    pub f: u32,
    /// The first epoch.
    pub epoch: u32,
    /// The format in which blobs are written.
    pub format: Format,
    /// The node that runs each shard of the first committee.
    pub owners: Shards,
    /// The faulty shards of the first committee, ascending.
    pub faulty: Shards,
    /// What happens.
    pub events: Events,
}
