#![tactic(auto)]

pub mod closure;
pub mod consistency;
mod moments;
pub mod order;
mod turned;
