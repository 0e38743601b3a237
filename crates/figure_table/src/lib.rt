// A table of figures as text: each line names what is asked and what is expected, and is judged by running the code.
#![tactic(auto)]

mod answer;
pub mod figure;
pub mod judge;
mod read;
pub mod report;
pub mod tally;
#[cfg(test)]
mod tests;
mod text;
