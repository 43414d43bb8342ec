// Proportional scaling, a line's amounts and meter readings. Knows nothing of books, sheets or files.
#![tactic(auto)]

pub mod line;
pub mod reading;
pub mod scaling;
