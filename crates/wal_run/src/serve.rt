//! The command that serves a shard.

ghost use Rattle.std.specs.Prelude.{◌≡◌, ◌≤◌, ℕ, List, IfOk, [], Some};
ghost use Rattle.std.specs.FinMap as map;
ghost use Rattle.wal_port.specs.Faults.{Rose};
ghost use Rattle.wal_words.specs.declared.task.Task.TheVariants.{Serve};
ghost use Rattle.wal_words.specs.Task.{IsTask};
ghost use Rattle.wal_run.specs.Around.{seen};
ghost use Rattle.wal_run.specs.Answers.{Ends};
ghost use Rattle.wal_run.specs.Serving.{EndsServing, at_start, end_status, own_nodes};
ghost use Rattle.wal_run.specs.inside.Serving.{MayServe};

use crate::finish::{COLLISION, MALFORMED, NO_MEMORY, SINK_FAILED, SOURCE_FAILED, TOO_LONG};
use std::alloc::{AllocError, Global};
use wal_epoch::{CreateError, Serving};
use wal_matrix::Work;
use wal_port::{Sink, Source};
use wal_serve::{Desk, ServeEnd, serve};
use wal_shape::Shards;
use wal_shard::Shard;
use wal_store::PoolKeep;
use wal_tree::Hash32;
use wal_words::Service;

/// The memory of serving, but for the pool of pages.
#[derive(Drop)]
struct Opened {
    state: Serving,
    work: Work,
    desk: Desk,
}

/// A node of its own for each shard of a committee.
fn own_nodes(alloc: Global, faults: u32) -> Result<Shards, AllocError>
    requires { faults ≤ 333 }
    ensures { IfOk result (λ nodes. nodes ≡ own_nodes faults) }
{
    let mut nodes = Vec::new(alloc);
    for node in 0..3 * faults as u16 + 1 {
        nodes.push(node)?;
    }
    Ok(Shards::from_vec(nodes))
}

/// The ledger at the start: empty, at epoch 0.
fn first_ledger(alloc: Global, service: &Service) -> Result<Serving, AllocError>
    requires { MayServe service.now }
    ensures { IfOk result (λ s. s.ledger ≡ (at_start service.now).ledger) }
{
    let owners = own_nodes(alloc, service.faults)?;
    let faulty = Shards::from_vec(Vec::new(alloc));
    match Serving::create(alloc, service.faults, 0, owners, faulty, 2 * service.blobs) {
        Ok(state) => Ok(state),
        Err(CreateError::BadFaults) => unreachable!(),
        Err(CreateError::BadEpoch) => unreachable!(),
        Err(CreateError::BadCommittee) => unreachable!(),
        Err(CreateError::Memory) => Err(AllocError),
    }
}

/// Takes the memory of serving, but for the pool of pages.
fn take_memory(alloc: Global, service: &Service) -> Result<Opened, AllocError>
    requires { MayServe service.now }
    ensures ledger { IfOk result (λ o. o.state.ledger ≡ (at_start service.now).ledger) }
    ensures work { IfOk result (λ o. o.work.f ≡ service.now.faults) }
    ensures desk { IfOk result (λ o. o.desk ≡ service.now.faults) }
{
    Ok(Opened {
        state: first_ledger(alloc, service)?,
        work: Work::create(alloc, service.faults)?,
        desk: Desk::create(alloc, service.faults)?,
    })
}

/// The status of an end.
fn status_of(end: &ServeEnd) -> u8
    ensures { result ≡ end_status end.now }
{
    match end {
        ServeEnd::Done => 0,
        ServeEnd::ReadFault => SOURCE_FAILED,
        ServeEnd::WriteFault => SINK_FAILED,
        ServeEnd::Malformed(_) => MALFORMED,
        ServeEnd::TooLong => TOO_LONG,
        ServeEnd::Collision(_) => COLLISION,
    }
}

/// Serves over a pool of pages, all of which are given back.
fn serve_pool<H: Hash32, S: Source, K: Sink>(
    service: &Service,
    keep: PoolKeep,
    mut opened: Opened,
    source: &mut S,
    sink: &mut K,
) -> u8
    requires range { MayServe service.now }
    requires keep { keep ≡ record { contents = map.empty; limit = Some service.now.pages } }
    requires ledger { opened.state.ledger ≡ (at_start service.now).ledger }
    requires work { opened.work.f ≡ service.now.faults }
    requires desk { opened.desk ≡ service.now.faults }
    ensures ended { EndsServing H.digest service.now (S.left source.old) (S.left source.new)
        (Rose (S.faults source.old) (S.faults source.new)) (K.written sink.old)
        (K.written sink.new) (Rose (K.faults sink.old) (K.faults sink.new)) result }
    ensures later_source { S.faults source.old ≤ S.faults source.new }
    ensures later_sink { K.faults sink.old ≤ K.faults sink.new }
{
    let mut shard = Shard::<H, PoolKeep>::create(service.faults, service.shard, keep);
    let end = serve(
        &mut shard,
        &mut opened.state,
        &mut opened.work,
        &mut opened.desk,
        source,
        sink,
    );
    shard.close().close();
    status_of(&end)
}

/// Serves the requests that the source gives. All memory is taken before the first byte.
pub fn serve_shard<H: Hash32, S: Source, K: Sink>(
    alloc: Global,
    service: &Service,
    source: &mut S,
    sink: &mut K,
) -> u8
    requires { MayServe service.now }
    ensures ends { (words : List (List ℕ)) → IsTask words (Serve service.now) → Ends H.digest words
        (seen S.Source source.old source.new K.Sink sink.old sink.new) result }
    ensures later_source { S.faults source.old ≤ S.faults source.new }
    ensures later_sink { K.faults sink.old ≤ K.faults sink.new }
{
    let Ok(opened) = take_memory(alloc, service) else {
        return NO_MEMORY;
    };
    match PoolKeep::create(alloc, service.pages) {
        Ok(keep) => serve_pool::<H, S, K>(service, keep, opened, source, sink),
        Err(_) => NO_MEMORY,
    }
}
