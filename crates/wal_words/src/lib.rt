//! What the words of the program's command line ask for.
#![tactic(auto)]

mod command_line;
mod number;
mod task;

pub use task::{Audit, Service, Task, WholeTask, read_task};
