//! Tests of the adapters to std, of pages and both keeps, of a journal, of a handover, and of a
//! writer and a shard that serves.
#![tactic(auto)]

#[cfg(test)]
mod adapters;
#[cfg(test)]
mod epochs;
#[cfg(test)]
mod journals;
#[cfg(test)]
mod keeps;
#[cfg(test)]
mod messages;
#[cfg(test)]
mod pages;
#[cfg(test)]
mod service;
