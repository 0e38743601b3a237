// The order language: what a ledger can be told, what it answers, and how both are laid out in bytes.
#![tactic(auto)]

pub mod answer;
pub mod encode;
pub mod order;
