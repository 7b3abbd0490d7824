//! A ledger of four nodes with a shard each: a blob is certified and handed over, and what is
//! refused.

ghost use Rattle.std.specs.Prelude.{◌≡◌, IfOk};
ghost use Rattle.wal_ledger.specs.Kept.{SameEpoch};

use std::alloc::{AllocError, Global};
use std::test::Fail;
use wal_epoch::{BeginError, Committee, FinishError, Moving, Serving};
use wal_ledger::{AckAnswer, AttestAnswer, ReadyAnswer, RegisterAnswer};
use wal_shape::{BlobId, Shards, Side};

const BLOB: BlobId = BlobId([1; 32]);

/// A list of these numbers.
fn list(alloc: Global, numbers: &[u16]) -> Result<Shards, AllocError>
    ensures { IfOk result (λ shards. shards ≡ numbers.now) }
{
    Ok(Shards::from_vec(Vec::from_slice(alloc, numbers)?))
}

fn committee(alloc: Global, faulty: &[u16], stays: &[u16]) -> Result<Committee, AllocError> {
    Ok(Committee {
        owners: list(alloc, &[0, 1, 2, 3])?,
        faulty: list(alloc, faulty)?,
        stays: list(alloc, stays)?,
    })
}

/// Whether four shards are counted in order.
fn is_counted(serving: &mut Serving) -> bool
    requires { serving.old.ledger.log.f ≡ 1 }
    ensures { SameEpoch serving.old.ledger.log serving.new.ledger.log }
{
    let registered = serving.register(&BLOB, 5) == RegisterAnswer::Registered(5);
    let first = serving.ack(0, &BLOB) == AckAnswer::Counted(1);
    let second = serving.ack(1, &BLOB) == AckAnswer::Counted(2);
    let third = serving.ack(2, &BLOB) == AckAnswer::Certified(3);
    let again = serving.ack(0, &BLOB) == AckAnswer::Already;
    let fourth = serving.ack(3, &BLOB) == AckAnswer::Certified(4);
    registered && first && second && third && again && fourth
}

/// Whether the calls of a moving state answer in order.
fn is_moved(moving: &mut Moving) -> bool
    requires { moving.old.ledger.log.f ≡ 1 }
    ensures { SameEpoch moving.old.ledger.log moving.new.ledger.log }
{
    let extension = moving.register(&BLOB, 9) == RegisterAnswer::MovingExtension;
    let attested = moving.attest(2, &BLOB) == AttestAnswer::Counted(1);
    let first = moving.ready(1) == ReadyAnswer::Counted(1);
    let second = moving.ready(2) == ReadyAnswer::Counted(2);
    extension && attested && first && second
}

#[test]
fn a_handover_in_order(rt: HostRuntime) -> Result<(), Fail> {
    let owners = list(rt.alloc(), &[0, 1, 2, 3])?;
    let faulty = list(rt.alloc(), &[3])?;
    let next = committee(rt.alloc(), &[0], &[1])?;
    let mut serving = Serving::create(rt.alloc(), 1, 0, owners, faulty, 20).expect(&rt, "created");
    let counted = is_counted(&mut serving) && serving.ledger().certificate(&BLOB) == Some((0, 4));
    let mut moving = serving.begin(next).expect(&rt, "begun");
    let carried = moving.carried(1) && !moving.carried(0) && !moving.carried(2);
    let moved = is_moved(&mut moving) && moving.faulty(Side::Next, 0);
    let (mut moving, why) = moving.finish().expect_err(&rt, "refused");
    let ready = moving.ready(3) == ReadyAnswer::Counted(3);
    let serving = moving.finish().expect(&rt, "finished");
    let told = counted && carried && moved && why == FinishError::Waiting(2) && ready;
    assert!(rt; told && serving.ledger().epoch() == 1);
    Ok(())
}

#[test]
fn no_room_and_no_later_epoch(rt: HostRuntime) -> Result<(), Fail> {
    let owners = list(rt.alloc(), &[0, 1, 2, 3])?;
    let faulty = list(rt.alloc(), &[])?;
    let next = committee(rt.alloc(), &[], &[])?;
    let mut serving = Serving::create(rt.alloc(), 1, 65_535, owners, faulty, 0).expect(
        &rt, "created",
    );
    let past = serving.register(&BLOB, 0) == RegisterAnswer::Past;
    let full = serving.register(&BLOB, 65_536) == RegisterAnswer::NoRoom;
    let (_, why) = serving.begin(next).expect_err(&rt, "refused");
    assert!(rt; past && full && why == BeginError::LastEpoch);
    Ok(())
}
