//! Tests of frames, commitments, readers and collisions: the worked blob, and calls that take
//! memory.
#![tactic(auto)]

#[cfg(test)]
mod collisions;
#[cfg(test)]
mod commitments;
#[cfg(test)]
mod contradictions;
#[cfg(test)]
mod frames;
#[cfg(test)]
mod gets;
#[cfg(test)]
mod lists;
#[cfg(test)]
mod reads;
#[cfg(test)]
mod strips;
