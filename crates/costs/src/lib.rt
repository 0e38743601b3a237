// What a write costs in units: the meaning of a cost policy, and two policies, copies and parity.
#![tactic(auto)]

pub mod copies;
pub mod estimate;
pub mod fault;
pub mod parity;
pub mod policy;
mod refusal;
#[cfg(test)]
mod tests;
