// The fugitive table and the grades by which a line chooses from it: what the table states of itself, the factors of an entry, and which
// grades a sheet takes. Total, and knows no line.
#![tactic(auto)]

pub mod entry;
pub mod grades;
pub mod header;
