//! The ledger of a blob store: who registered, acknowledged and attested what in which epoch, and
//! which committee answers for a blob.
#![tactic(auto)]

mod answers;
mod book;
mod calls;
mod entry;
mod flags;
mod ledger;
mod numbers;
mod owners;
mod rows;
mod tally;

pub use answers::{AckAnswer, AttestAnswer, ReadyAnswer, RegisterAnswer};
pub use entry::{Body, Entry, Kind};
pub use ledger::Ledger;
