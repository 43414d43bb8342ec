// The files of a folder, read into lent room, and the report of what they hold: a sheet, one that was typed, or a bundle.
#![tactic(auto)]

pub mod files;
pub mod given;
