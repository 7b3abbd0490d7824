//! Two pieces of evidence that contradict each other show two texts with one digest.
#![tactic(auto)]

mod codewords;
mod false_parts;
mod identities;
mod matrices;
mod verdicts;

pub use codewords::{held_slivers_meet, slivers};
pub use identities::metadatas;
pub use matrices::blobs;
pub use verdicts::{blob_and_evidence, evidences};
