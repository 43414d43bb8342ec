// The desk: it reads two coefficient books, a fugitive table and a sheet, or a bundle of sheets, and accounts for the lines. It relies on
// the crates below it only through their promises and public laws.
#![tactic(auto)]

mod account;
pub mod book;
pub mod books;
pub mod cells;
pub mod declare;
mod dust;
pub mod entries;
mod inside;
pub mod key;
pub mod lent;
pub mod line;
mod right;
mod row;
mod row_bytes;
mod run;
pub mod sheet;
pub mod table;
mod tally;
mod technique;
pub mod works;
