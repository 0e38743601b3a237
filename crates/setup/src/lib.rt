// Runs of a script over a new ledger, on pools of every kind and under every policy, for programs.
#![tactic(auto)]

pub mod calls;
pub mod fault;
pub mod scheme;
