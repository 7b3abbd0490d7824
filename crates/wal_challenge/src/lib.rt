//! Challenges of storage: a shard shows that it holds its slivers by opening symbols of them at
//! places that are drawn from a beacon.
#![tactic(auto)]

mod answering;
mod beacon;
mod checking;
mod clash;
mod drawing;
mod levels;
mod line;

pub use answering::{Answerer, answer};
pub use beacon::draw;
pub use checking::{AnswerVerdict, answers_are_accepted, check_answer};
pub use clash::{claim_collision, false_claims_collide};
pub use drawing::Draw;
