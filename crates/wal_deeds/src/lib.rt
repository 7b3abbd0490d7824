//! What a shard that serves does is what a correct shard of a network does, while the epoch changes
//! too, and with several shards on a node.
#![tactic(auto)]

mod laws;

pub use laws::every_deed;
