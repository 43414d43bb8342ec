// k: for which share of the production a treatment ran, by a meter reading.
#![tactic(auto)]

pub mod share;
