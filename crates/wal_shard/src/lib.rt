//! One shard: what it holds, what it takes, and what it answers.
#![tactic(auto)]

mod answers;
mod holding;
mod keeping;
mod putting;
mod replying;
mod shard;

pub use answers::{AckRefusal, Declined, PutAnswer};
pub use replying::reply_room;
pub use shard::Shard;
