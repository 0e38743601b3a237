// The meaning of the ledger: what it is told, what it answers, and what holds of every run.
#![tactic(auto)]

pub mod state;
pub mod theorems;
pub mod worked;
