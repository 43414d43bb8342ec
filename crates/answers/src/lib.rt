// What the desk answers, and the number that each refusal has in the paper.
#![tactic(auto)]

pub mod answer;
pub mod bundle;
pub mod outcome;
pub mod step;
