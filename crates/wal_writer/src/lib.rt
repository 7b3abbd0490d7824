//! An honest writer: what it sends to each shard, and the certificate that the shards hold it.
#![tactic(auto)]

mod answers;
mod certifying;
mod write;

pub use answers::{Certificate, Pending};
pub use certifying::certificate;
pub use write::{StartError, Write};
