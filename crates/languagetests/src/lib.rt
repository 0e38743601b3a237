// Tests of the order language: every order read, cut and refused, and every answer's bytes.
#![tactic(auto)]

#[cfg(test)]
mod answers_written;
#[cfg(test)]
mod orders_read;
