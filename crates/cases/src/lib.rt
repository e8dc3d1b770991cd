// What the programs share: a case as bytes, and an answer as lines.
#![tactic(auto)]

pub mod input;
pub mod lines;
