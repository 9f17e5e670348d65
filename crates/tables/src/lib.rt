//! The rounds of a sale and their bids as a program keeps them, and what is computed from them: costs, steps and sheets.

#![tactic(auto)]

pub mod cost;
pub mod table;
#[cfg(test)]
mod tests;
