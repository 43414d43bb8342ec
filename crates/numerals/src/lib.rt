// Numbers as decimal numerals and as words, numbers as they were typed, and bytes laid into lent ones. Knows no format.
#![tactic(auto)]

pub mod ahead;
pub mod bytes;
pub mod number;
pub mod typed;
pub mod word;
