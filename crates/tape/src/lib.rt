#![tactic(auto)]

// The byte format of a tape, its header and its records, read and written; and numbers written in decimal.
pub mod error;
pub mod field;
pub mod header;
pub mod number;
pub mod read;
pub mod record;
pub mod write;
