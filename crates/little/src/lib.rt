// Total reads of little-endian numbers, parts of lent slices, and cells made zero. Knows no format.
#![tactic(auto)]

pub mod cells;
pub mod part;
pub mod read;
