// The lent table: rows, and what an answer leaves in it.
#![tactic(auto)]

pub mod out;
pub mod rows;
