//! The first network: an empty ledger, and shards that hold nothing.

ghost use Rattle.std.specs.Prelude.{◌≡◌, ◌≤◌, [], IfOk, length, nat_le};
ghost use Rattle.std.specs.FinMap as finmap;
ghost use Rattle.wal_shard.specs.Replying.{room_of};
ghost use Rattle.wal_world.specs.inside.Creating.{CreatesNetwork, IsFresh};
ghost use Rattle.wal_world.specs.inside.Network.{shards_with};

use crate::books::Books;
use crate::members::{Members, Sides};
use crate::network::Network;
use std::alloc::{AllocError, Global};
use std::collections::BTreeMap;
use wal_epoch::{CreateError, Serving};
use wal_frame::OutBuf;
use wal_matrix::Work;
use wal_shape::{Format, Shards};
use wal_shard::{Shard, reply_room};
use wal_store::MapKeep;
use wal_tree::Hash32;

/// The shards of a committee, each of which holds nothing.
fn empty_shards<H: Hash32>(alloc: Global, f: u32) -> Result<Vec<Shard<H, MapKeep>>, AllocError>
    requires some { 1 ≤ f }
    requires few { f ≤ 333 }
    ensures { IfOk result (λ made. made.items ≡ shards_with f (λ s. finmap.empty)) }
{
    let size = (3 * f + 1) as u16;
    let mut shards = Vec::with_capacity(alloc, usize::from(size))?;
    for index in 0..size {
        let keep = MapKeep::create(alloc, None)?;
        shards.push(Shard::create(f, index, keep))?;
    }
    Ok(shards)
}

/// The shards of a committee, each of which holds nothing, and the tables and the buffer of the
/// calls on them.
fn empty_rooms<H: Hash32>(
    alloc: Global,
    f: u32,
) -> Result<(Vec<Shard<H, MapKeep>>, Work, OutBuf), AllocError>
    requires some { 1 ≤ f }
    requires few { f ≤ 333 }
    ensures shards { IfOk result (λ r. r.0.items ≡ shards_with f (λ s. finmap.empty)) }
    ensures work { IfOk result (λ r. r.1.f ≡ f) }
    ensures empty { IfOk result (λ r. r.2.bytes ≡ []) }
    ensures spare { IfOk result (λ r. r.2.spare ≡ room_of f) }
{
    let work = Work::create(alloc, f)?;
    let buffer = OutBuf::create(alloc, reply_room(f))?;
    let shards = empty_shards(alloc, f)?;
    Ok((shards, work, buffer))
}

impl<H: Hash32> Network<H> {
    /// A network with this ledger, in which nothing is held, and whether the committee has at most
    /// f faulty shards.
    fn with_books(
        alloc: Global,
        format: Format,
        serving: Serving,
        few: bool,
    ) -> Result<Network<H>, AllocError>
        ensures { IfOk result (IsFresh format serving few) }
    {
        let f = serving.f();
        serving.ledger();
        let (shards, work, buffer) = empty_rooms::<H>(alloc, f)?;
        Ok(Network {
            format,
            few,
            sides: Sides {
                serving: Members { shards },
                next: Members {
                    shards: Vec::new(alloc),
                },
            },
            answers: BTreeMap::new(alloc),
            work,
            buffer,
            books: Some(Books::Serving(serving)),
        })
    }

    /// A network in its first state, in this epoch: its committee by the node that runs each shard
    /// and the faulty shards, and room for so many entries of the ledger.
    ///
    /// The first that applies: `BadFaults`, `BadEpoch`, `BadCommittee`, `Memory`.
    pub(crate) fn create(
        alloc: Global,
        f: u32,
        epoch: u32,
        format: Format,
        owners: Shards,
        faulty: Shards,
        room: u32,
    ) -> Result<Network<H>, CreateError>
        ensures { CreatesNetwork f epoch format owners faulty room result }
    {
        let few = faulty.as_slice().len() <= f as usize;
        match Serving::create(alloc, f, epoch, owners, faulty, room) {
            Ok(serving) => match Network::with_books(alloc, format, serving, few) {
                Ok(network) => Ok(network),
                Err(_) => Err(CreateError::Memory),
            },
            Err(error) => Err(error),
        }
    }
}
