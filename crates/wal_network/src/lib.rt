//! The theorem of networks: shards that go along one ledger, each at its own pace, are a run of the
//! world of schedules, and so are safe.
#![tactic(auto)]

mod laws;

pub use laws::{every_answer, every_blob, every_network};
