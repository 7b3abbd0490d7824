//! Byte ranges of blobs from what shards sent, with a cache of the blobs that were checked.
#![tactic(auto)]

mod answer;
mod checked;
mod gateway;
mod laws;
mod missed;
mod range;
mod request;
mod sent;

pub use answer::{Found, GetAnswer};
pub use checked::CheckedBlob;
pub use gateway::Gateway;
pub use laws::{contrary_evidence_collides, gets_are_sound, gets_have_one_answer};
pub use request::{Asked, Request, first_request, request_in};
