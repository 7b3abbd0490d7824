//! Where a shard holds its metadata, slivers and proofs: one contract, and two ways to meet it.
#![tactic(auto)]

mod chains;
mod choice;
mod contract;
mod holding;
mod kept;
pub mod laws;
mod map_keep;
mod ordered;
mod pool_keep;
mod rows;
mod shelf;
mod stored;
mod table;

pub use choice::{Choice, retain};
pub use contract::{Keep, KeepError};
pub use map_keep::MapKeep;
pub use pool_keep::PoolKeep;
pub use wal_shape::Part;
