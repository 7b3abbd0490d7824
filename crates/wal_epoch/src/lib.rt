//! The two states of an epoch as types: between two changes one committee serves, and while the
//! epoch changes there are two.
#![tactic(auto)]

mod answers;
mod committee;
mod moving;
mod serving;

pub use answers::{BeginError, CreateError, FinishError};
pub use committee::Committee;
pub use moving::Moving;
pub use serving::Serving;
