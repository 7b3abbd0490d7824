//! The shape of a blob, and the plain values of the store: identifiers, metadata, slivers, openings
//! and proofs, each with its one spelling in bytes.
#![tactic(auto)]

mod axis;
mod body;
mod claim;
mod fields;
mod lists;
mod metadata;
mod opening;
mod owners;
mod part;
mod proof;
mod shape;
mod text;

pub use axis::{Axis, Side};
pub use body::{BodyFault, BodyRef, read_body};
pub use claim::{Claim, Claims};
pub use fields::{bytes_of, u8_at, u16_at, u32_at, u64_at};
pub use lists::{Bytes, Path, Payloads, Shards};
pub use metadata::{BlobId, MetaRef, Metadata};
pub use opening::{Opening, OpeningRef, Openings, Sliver, SliverRef};
pub use owners::{is_ascending, is_committee, node_of};
pub use part::Part;
pub use proof::{BadProof, ProofRef};
pub use shape::{Format, MOST_BYTES, Shape, ShapeError};
pub use text::{Collision, MetaClash, ShortText};
