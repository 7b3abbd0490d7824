//! A shard that serves: requests are taken of a source, one envelope after the other, and each is
//! answered in envelopes from the shard before the next one is taken. All memory is taken before.
#![tactic(auto)]

mod answering;
mod desk;
mod envelopes;
mod payload;
mod reply;
mod requests;
mod serving;
mod session;
mod taking;

pub use desk::{Desk, desk_room};
pub use serving::{ServeEnd, serve};
