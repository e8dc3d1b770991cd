// Values that open nothing: numbers, booleans, text, and lists of these. Each gives its rows to the lent table.
#![tactic(auto)]

pub mod count;
pub mod list;
pub mod quick;
pub mod scalar;
