// A table of the desk's, settled one step at a time: the step, and how many steps change something. A table is lent as its cells, row after
// row, G, R, U, D, F; the last row has the sums.
#![tactic(auto)]

pub mod count;
pub mod step;
mod table;
