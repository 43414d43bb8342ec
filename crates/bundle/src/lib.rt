// The bundle, a works' sheets in one file: what it states, whether it is right, and whether results have room for it. Knows no sheet's
// content.
#![tactic(auto)]

pub mod entry;
pub mod form;
pub mod header;
pub mod whole;
