#![tactic(auto)]

// The text form of a tape: a line for its heading and for each record, written and read.
pub mod error;
mod lines;
pub mod list;
pub mod make;
pub mod read;
mod words;
pub mod write;
