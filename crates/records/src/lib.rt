// The records of a file, read whole.
#![tactic(auto)]

pub mod fault;
pub mod letter;
mod part;
pub mod reader;
pub mod record;
