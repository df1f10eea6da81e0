// Relations between moments and between titles, and what a title rule says of moments.
#![tactic(auto)]

pub mod points;
pub mod rules;
pub mod titles;
