//! Tests of the field, the codes, the hash trees and the matrix, on values from outside.
#![tactic(auto)]

#[cfg(test)]
mod field;
#[cfg(test)]
mod matrix;
#[cfg(test)]
mod regions;
#[cfg(test)]
mod trees;
