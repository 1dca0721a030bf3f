// Playing a file of records, and the report of it.
#![tactic(auto)]

mod call;
pub mod fault;
mod line;
pub mod play;
mod report;
mod session;
