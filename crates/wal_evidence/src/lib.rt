//! The evidence that a reader collects for a blob, and the verdict that it leads to.
#![tactic(auto)]

mod codeword;
mod crosses;
mod evidence;
mod judging;
mod proof;

pub use codeword::{root_holds, symbol_count};
pub use evidence::{Basis, Evidence, Verdict};
pub use judging::verdict;
pub use proof::{ProofVerdict, is_bad_proof, proof_check};
