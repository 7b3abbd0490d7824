//! The commitments to a blob: its metadata and its identifier, and the slivers and openings that it
//! holds.
#![tactic(auto)]

mod clash;
mod crossing;
mod held;
mod identifier;
mod leaves;
mod opening;
mod roots;
mod strips;

pub use clash::collide_metadata;
pub use crossing::{collide_opening, part_at};
pub use held::sliver_holds;
pub use identifier::{blob_id, identify, metadata_holds, metadata_of};
pub use opening::{opening_holds, openings_are_bodies, reveal};
