//! Schedules as JSON.
#![tactic(auto)]

mod drawn;
mod fault;
mod field;
mod law;
mod read;
mod spelled;
mod write;

pub use drawn::sample;
pub use law::spelled_schedules;
pub use read::{ScheduleError, read_schedule};
pub use write::write_schedule;
