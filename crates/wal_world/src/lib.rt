//! The world of a schedule: what all shards hold, what the ledger says, and what is read, event by
//! event.
#![tactic(auto)]

mod answering;
mod books;
mod claims;
mod creating;
mod entries;
mod forgetting;
mod gathering;
mod handover;
mod keeping;
mod knowing;
mod members;
mod network;
mod reading;
mod recovering;
mod run;
mod sending;
mod step;
mod summary;
mod taken;
mod tally;
mod world;
mod writing;

pub use run::{ReplayEnd, ReplayError, replay};
pub use summary::{Summary, Summed, summarize};
pub use wal_protocol::First;
pub use wal_theorem::{every_event, every_run, one_run};
pub use world::World;
