// RFC 4180: where the fields of a comma-separated text end, what they hold, and what follows them. Knows no sheet.
#![tactic(auto)]

pub mod field;
