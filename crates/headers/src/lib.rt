// What the two files state of themselves at their beginning, and whether it fits: reads of any bytes, total.
#![tactic(auto)]

pub mod book;
pub mod house;
pub mod sheet;
pub mod unit;
