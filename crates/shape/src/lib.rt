// The shape of value rows: what the rows of one value of a type are, and how they are walked. Definitions and laws alone; nothing is run.
#![tactic(auto)]
