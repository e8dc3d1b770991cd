// Text: strings in the data, and whether they are well-formed Unicode.
#![tactic(auto)]

pub mod string;
pub mod utf16;
pub mod utf8;
