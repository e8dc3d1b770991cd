// The wire: where a reading stands, how it moves, and the numbers it finds. The Rust's Reader, EndiannessRead and AsBytes.
// What a goal without an answer opens.
#![tactic(auto, using(std::proofs::lemmas::Bool::Decides::nat_tests), unfolding(crate::specs::Place::alignment_of, crate::specs::Place::padding_of, crate::specs::Ends::keeps_ends_by, crate::specs::Ends::cut_at, crate::specs::Identifier::settings_of, crate::specs::Identifier::order_of, crate::specs::Number::number_at, crate::specs::Number::boolean_in, crate::specs::Dheader::up_to, crate::specs::Dheader::contents_at, crate::specs::Dheader::delimited_by))]

pub mod cursor;
pub mod dheader;
pub mod number;
pub mod reader;
pub mod settings;
pub mod signed;
