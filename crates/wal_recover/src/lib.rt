//! Recovering a sliver from openings.
#![tactic(auto)]

mod outcome;
mod recovery;
mod solving;
mod taking;

pub use outcome::{Recovered, Recovery};
pub use recovery::recover;
