//! A journal of what a shard holds: each change is on a disk before it is acknowledged, so that a
//! crash loses none.
#![tactic(auto)]

mod disk;
mod finish;
mod flat_disk;
mod formatting;
mod journal;
pub mod laws;
mod mem_disk;
mod open;
mod packing;
mod reading;
mod record;
mod text;
mod write;

pub use disk::Disk;
pub use flat_disk::FlatDisk;
pub use formatting::format;
pub use journal::{ChangeRefusal, Journal, Why};
pub use mem_disk::MemDisk;
pub use open::{OpenFault, OpenRefusal};
pub use packing::pack;
pub use wal_port::Failed;
