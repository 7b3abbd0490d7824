//! All that the program does: what the words of a command line ask for, over a source and a sink.
#![tactic(auto)]

mod answer;
mod bundle;
mod challenge;
mod check;
mod encode;
mod envelope;
mod fetch;
mod finish;
mod front;
mod identify;
mod image;
mod law;
mod lines;
mod member;
mod pieces;
mod read;
mod recorded;
mod recover;
mod refusal;
mod replay;
mod sample;
mod serve;
mod slivers;
mod top;
mod unpack;
mod verify;

pub use finish::{
    COLLISION, MALFORMED, NO_MEMORY, REJECTED, SHORT, SINK_FAILED, SOURCE_FAILED, TOO_LONG, USAGE,
};
pub use law::spelled_schedule_has_run;
pub use top::run;
