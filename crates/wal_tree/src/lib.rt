//! Digests of 32 bytes and the binary hash trees over them.
#![tactic(auto)]

mod collide;
mod hash;
mod node;
mod parts;
mod pass;
mod path_buf;
mod short;
mod siblings;
mod stack;
mod stacks;
mod upwards;
mod verify;

pub use collide::{collide_lists, collide_paths, collide_short_lists, copy_clash};
pub use hash::{Digest, Hash32, Sha, Toy32};
pub use node::leaf_digest;
pub use pass::{root, root_of_leaves};
pub use path_buf::PathBuf;
pub use short::short_text;
pub use siblings::path;
pub use stacks::Stacks;
pub use verify::path_holds;
pub use wal_lanes::Pieces;
