// Runs a script of orders on a ledger.
#![tactic(auto)]

pub mod ended;
pub mod fault;
pub mod run;
