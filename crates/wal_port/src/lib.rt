//! The outside of the program: where its bytes come from and where they go.
//!
//! A [`Source`] gives bytes and a [`Sink`] takes them, and each may fail at any call. What stands
//! above is written over these two traits alone. [`MemSource`] and [`MemSink`] stand for them in
//! tests, with pieces and failures by plan ([`is_next_planned`]). [`StdSource`] and [`StdSink`] put
//! a reader and a writer of `std` behind them, and [`SliceSource`] and [`SliceSink`] slices of a
//! caller's.
#![tactic(auto)]

mod adapters;
mod mem_sink;
mod mem_source;
mod noted;
mod plan;
mod ports;
mod slices;
mod transfers;

pub use adapters::{StdSink, StdSource};
pub use mem_sink::MemSink;
pub use mem_source::MemSource;
pub use plan::is_next_planned;
pub use ports::{Failed, Sink, Source};
pub use slices::{SliceSink, SliceSource};
pub use transfers::{TakeError, WriteFault, put_all, take_all};
