//! The theorem over every schedule: the rules of frames, blobs, holdings, reads and recoveries have
//! the laws that the model's safety rests on.
#![tactic(auto)]

mod laws;

pub use laws::{every_event, every_run, one_run};
