// The search for a member by its id, in both versions. The lookup parts of the Rust's EncodingVersion1 and EncodingVersion2.
#![tactic(auto)]

pub mod ahead;
pub mod member;
pub mod search;
pub mod straight;
pub mod xcdr1;
pub mod xcdr2;
