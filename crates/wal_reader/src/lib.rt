//! Reading a blob from recorded payloads, of which any may lie, and what else they carry.
#![tactic(auto)]

mod bad_proof;
mod carried;
mod closing;
mod collecting;
mod errors;
mod finding;
mod heard;
mod intake;
mod kept;
mod known;
mod longest;
mod openings;
mod outcome;
mod reader;
mod reading;
mod slivers;

pub use bad_proof::{bad_proof_in, proof_in};
pub use errors::{FeedError, FinishError};
pub use finding::{FoundMetadata, metadata_in};
pub use openings::{claims_in, openings_are_claims, openings_in};
pub use outcome::{Outcome, ReadAnswer};
pub use reader::Reader;
pub use reading::read;
pub use slivers::sliver_in;
