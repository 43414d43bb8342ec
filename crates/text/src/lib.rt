// Sheets as comma-separated text: read into binary ones, written from them, and accounted for. It relies on the desk only through its
// promises.
#![tactic(auto)]

pub mod convert;
pub mod declare;
mod field;
mod line;
pub mod read;
mod words;
pub mod write;
