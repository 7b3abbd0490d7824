//! Bundles: small members in whole columns of one blob, so that a member is read from its secondary
//! slivers.
#![tactic(auto)]

mod answer;
mod bundling;
mod collisions;
mod columns;
mod finding;
mod index;
mod laying;
mod layout;
mod lengths;
mod reading;

pub use answer::{BundleError, MemberAnswer};
pub use bundling::{bundle, bundle_columns_are_slivers};
pub use collisions::{bundle_collision, contrary_members_collide, member_collision};
pub use finding::{member, shown_member_is_told};
