// Plans over a bank: their atoms, their rules, and the calls that change them.
#![tactic(auto)]

pub mod plan;
pub mod refusal;
