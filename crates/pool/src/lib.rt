// Allocators of units behind one meaning: a bitmap, a chain, and a joined pair of any two.
#![tactic(auto)]

pub mod allocator;
pub mod batch;
pub mod bitmap;
pub mod chain;
pub mod joined;
