// Reading a script, order by order.
#![tactic(auto)]

mod cursor;
pub mod fault;
mod guard;
pub mod reader;
