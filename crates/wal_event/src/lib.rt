//! What happens in a network, and the outcomes: events, schedules of events, and the lines of a
//! report, as values.
#![tactic(auto)]

mod event;
mod line;
mod range;
mod report;

pub use event::{Event, Events, Replies, Reply, Schedule};
pub use line::{
    AckWord, AttestWord, BeginWord, CertificateWord, FinishWord, ForgetWord, HoldersWord, Line,
    ReadWord, ReadyWord, RecoverWord, RegisterWord, SendWord, WriteWord,
};
pub use range::fits;
pub use report::line_text;
