//! Tests of the crates below: kinds of worth, tapes and their listings, at the edges of their figures.

#![tactic(auto)]

#[cfg(test)]
mod kinds;
#[cfg(test)]
mod listings;
#[cfg(test)]
mod tapes;
