//! The ledger with its committee, or its two committees while the epoch changes.

ghost use Rattle.std.specs.Prelude.{◌≡◌, ◌<◌, ◌≤◌, false, true, Some, IfErr, OnErr, OnOk};
ghost use Rattle.wal_ledger.specs.Answers.{Registers, Acks, Attests, Readies};
ghost use Rattle.wal_ledger.specs.Kept.{SameEpoch};
ghost use Rattle.wal_ledger.specs.Ledger.{is_moving};
ghost use Rattle.wal_ledger.specs.Shards.{committee_size};
ghost use Rattle.wal_shape.specs.Owners.{among};
ghost use Rattle.wal_world.specs.declared.books.Books.TheVariants as states;
ghost use Rattle.wal_world.specs.inside.Books.{AreBooks, IsBeginError, IsBegun, IsFinishError};
ghost use Rattle.wal_world.specs.inside.Books.{IsFinished, books_with, faulty_on, ledger_of};

use std::mem;
use wal_epoch::{BeginError, Committee, FinishError, Moving, Serving};
use wal_ledger::{AckAnswer, AttestAnswer, Ledger, ReadyAnswer, RegisterAnswer};
use wal_shape::{BlobId, Side};

/// The ledger with its committee, or its two committees while the epoch changes.
#[derive(Drop)]
pub(crate) enum Books {
    /// One committee serves.
    Serving(Serving),
    /// The epoch changes.
    Moving(Moving),
}

/// Lends the ledger.
pub(crate) fn ledger_in(books: &Option<Books>) -> &Ledger
    requires { AreBooks books.now }
    ensures { result.now ≡ ledger_of books.now }
{
    match books {
        Some(Books::Serving(serving)) => serving.ledger(),
        Some(Books::Moving(moving)) => moving.ledger(),
        None => unreachable!(),
    }
}

/// Whether a shard of a side is faulty.
pub(crate) fn faulty_in(books: &Option<Books>, side: Side, shard: u16) -> bool
    requires { AreBooks books.now }
    ensures { result ≡ among (faulty_on side books.now) shard }
{
    match (books, side) {
        (Some(Books::Serving(serving)), Side::Now) => serving.faulty(shard),
        (Some(Books::Serving(_)), Side::Next) => false,
        (Some(Books::Moving(moving)), _) => moving.faulty(side, shard),
        (None, _) => unreachable!(),
    }
}

/// The ledger's `register`.
pub(crate) fn register_in(books: &mut Option<Books>, id: &BlobId, until: u32) -> RegisterAnswer
    requires { AreBooks books.old }
    ensures answer { Registers (ledger_of books.old) id.now until result (ledger_of books.new) }
    ensures same { SameEpoch (ledger_of books.old).log (ledger_of books.new).log }
    ensures rest { books.new ≡ books_with books.old (ledger_of books.new) }
{
    match books {
        Some(Books::Serving(serving)) => serving.register(id, until),
        Some(Books::Moving(moving)) => moving.register(id, until),
        None => unreachable!(),
    }
}

/// The ledger's `ack`.
pub(crate) fn ack_in(books: &mut Option<Books>, shard: u16, id: &BlobId) -> AckAnswer
    requires books { AreBooks books.old }
    requires shard { shard < committee_size (ledger_of books.old).log.f }
    ensures answer { Acks (ledger_of books.old) shard id.now result (ledger_of books.new) }
    ensures same { SameEpoch (ledger_of books.old).log (ledger_of books.new).log }
    ensures rest { books.new ≡ books_with books.old (ledger_of books.new) }
{
    match books {
        Some(Books::Serving(serving)) => serving.ack(shard, id),
        Some(Books::Moving(moving)) => moving.ack(shard, id),
        None => unreachable!(),
    }
}

/// The ledger's `attest`.
pub(crate) fn attest_in(books: &mut Option<Books>, shard: u16, id: &BlobId) -> AttestAnswer
    requires books { AreBooks books.old }
    requires shard { shard < committee_size (ledger_of books.old).log.f }
    ensures answer { Attests (ledger_of books.old) shard id.now result (ledger_of books.new) }
    ensures same { SameEpoch (ledger_of books.old).log (ledger_of books.new).log }
    ensures rest { books.new ≡ books_with books.old (ledger_of books.new) }
{
    match books {
        Some(Books::Serving(serving)) => serving.attest(shard, id),
        Some(Books::Moving(moving)) => moving.attest(shard, id),
        None => unreachable!(),
    }
}

/// The ledger's `ready`.
pub(crate) fn ready_in(books: &mut Option<Books>, shard: u16) -> ReadyAnswer
    requires books { AreBooks books.old }
    requires moving { is_moving (ledger_of books.old).log ≡ true }
    requires shard { shard < committee_size (ledger_of books.old).log.f }
    ensures answer { Readies (ledger_of books.old) shard result (ledger_of books.new) }
    ensures same { SameEpoch (ledger_of books.old).log (ledger_of books.new).log }
    ensures rest { books.new ≡ books_with books.old (ledger_of books.new) }
{
    match books {
        Some(Books::Moving(moving)) => moving.ready(shard),
        _ => unreachable!(),
    }
}

/// Takes the serving state out, which is there.
fn take_serving(books: &mut Option<Books>) -> Serving
    requires books { AreBooks books.old }
    requires serving { is_moving (ledger_of books.old).log ≡ false }
    ensures { books.old ≡ Some (states.Serving result) }
{
    match books.take() {
        Some(Books::Serving(serving)) => serving,
        _ => unreachable!(),
    }
}

/// Takes the moving state out, which is there.
fn take_moving(books: &mut Option<Books>) -> Moving
    requires books { AreBooks books.old }
    requires moving { is_moving (ledger_of books.old).log ≡ true }
    ensures { books.old ≡ Some (states.Moving result) }
{
    match books.take() {
        Some(Books::Moving(moving)) => moving,
        _ => unreachable!(),
    }
}

/// Begins to change the epoch.
pub(crate) fn begin_in(books: &mut Option<Books>, committee: Committee) -> Result<(), BeginError>
    requires books { AreBooks books.old }
    requires serving { is_moving (ledger_of books.old).log ≡ false }
    ensures begun { OnOk result
        (IsBegun books.old committee.owners committee.faulty committee.stays books.new) }
    ensures refused { OnErr result (books.new ≡ books.old) }
    ensures error { IfErr result
        (IsBeginError (ledger_of books.old) committee.owners committee.faulty committee.stays) }
{
    match take_serving(books).begin(committee) {
        Ok(moving) => {
            moving.ledger();
            drop(mem::replace(books, Some(Books::Moving(moving))));
            Ok(())
        }
        Err((serving, error)) => {
            drop(mem::replace(books, Some(Books::Serving(serving))));
            Err(error)
        }
    }
}

/// Ends the change of the epoch.
pub(crate) fn finish_in(books: &mut Option<Books>) -> Result<(), FinishError>
    requires books { AreBooks books.old }
    requires moving { is_moving (ledger_of books.old).log ≡ true }
    ensures finished { OnOk result (IsFinished books.old books.new) }
    ensures refused { OnErr result (books.new ≡ books.old) }
    ensures error { IfErr result (IsFinishError (ledger_of books.old)) }
{
    match take_moving(books).finish() {
        Ok(serving) => {
            serving.ledger();
            drop(mem::replace(books, Some(Books::Serving(serving))));
            Ok(())
        }
        Err((moving, error)) => {
            drop(mem::replace(books, Some(Books::Moving(moving))));
            Err(error)
        }
    }
}
