// The text that the programs print.
#![tactic(auto)]

pub mod rows;
pub mod tables;
