//! The model of a network of shards: its state, what each event makes of it, and what is safe of
//! every run.
//! It is over any rules of what frames, holdings and replies are, as far as a step speaks of them.
#![tactic(auto)]

mod first;
mod said;

pub use first::First;
pub use said::Said;
