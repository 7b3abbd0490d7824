//! Tests of the whole program over sources and sinks in memory: runs under the toy digest, reads
//! and writes that fail, and schedules as text.
#![tactic(auto)]

#[cfg(test)]
mod collisions;
#[cfg(test)]
mod faults;
#[cfg(test)]
mod recorded;
#[cfg(test)]
mod replays;
#[cfg(test)]
mod runs;
#[cfg(test)]
mod schedules;
