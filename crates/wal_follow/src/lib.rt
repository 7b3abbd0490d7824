//! Entries of a ledger, one after the other, by a context and the records of the blobs that they
//! name.
#![tactic(auto)]

mod entering;
mod item;
mod laws;
mod outcome;

pub use entering::{enter, enter_all};
pub use item::Item;
pub use laws::keeps_up;
pub use outcome::Outcome;
