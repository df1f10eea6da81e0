// House tables: the reader, the writer, and the table as a source.
#![tactic(auto)]

pub mod commands;
pub mod reader;
mod stating;
pub mod tables;
pub mod writer;
