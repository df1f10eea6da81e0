// Rows, scenes, sources and the layers over them; the refusals of every call.
#![tactic(auto)]

pub mod added;
pub mod joined;
pub mod left_out;
mod piles;
pub mod refusals;
pub mod sources;
