//! The extended matrix of RedStuff (Walrus paper, "Red Stuff"): a blob's symbols, extended along
//! the rows and along the columns, and the slivers that shards hold.
#![tactic(auto)]

mod blocks;
mod columns;
mod decoding;
mod encoded;
mod expansion;
mod front;
mod rows;
mod solving;
mod strips;
mod transposition;
mod work;

pub use columns::{blobs_have_matrices, block_of_columns, columns_are_slivers};
pub use decoding::decode_primaries;
pub use encoded::{Encoded, extend};
pub use front::Front;
pub use strips::Strips;
pub use transposition::copy_column;
pub use work::{Work, codeword_of, expand, expand_loaded, solve};
