//! The messages of the store as bytes: frames, the envelopes in which they are sent, and streams of
//! envelopes.
#![tactic(auto)]

mod buffer;
mod fields;
mod frame;
mod front;
mod number;
mod reading;
mod stream;
mod writing;

pub use buffer::{OutBuf, write_payload};
pub use frame::{Envelope, FrameError, FrameRef};
pub use front::{envelope, size_in};
pub use reading::read_frame;
pub use stream::{SplitError, join, split};
pub use writing::{frame_bytes, sliver_head, write_frame};
