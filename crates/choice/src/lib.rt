// A union's choice: what its discriminator says, and the member that this selects.
#![tactic(auto)]

pub mod discriminator;
pub mod select;
