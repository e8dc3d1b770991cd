// The type book: whether it is right, where its types stand, and what a type, a member and a label say, read where they stand. Its bytes may be any,
// and past the end all is 0. What asks more of its caller says so: the functions `.._there` take a place whose bytes are there.
#![tactic(auto)]

pub mod asked;
pub mod bytes;
pub mod fault;
pub mod index;
pub mod judge;
pub mod labels;
pub mod member;
pub mod types;
