//! Tests of what is no data: worked values of the definitions, which the prover computes; readers,
//! writers, files and sources that fail at a call; and calls that no program makes, each as a user
//! would write it. All else is a line of data in `tests/cases`, or a script over the programs.
//!
//! They stand in one crate apart from the libraries, which are so proved once, and by public calls
//! alone.
#![tactic(auto)]

#[cfg(test)]
mod base;
#[cfg(test)]
mod blocks;
#[cfg(test)]
mod merges;
#[cfg(test)]
mod parts;
#[cfg(test)]
mod runs;
#[cfg(test)]
mod store;
#[cfg(test)]
mod uses;
#[cfg(test)]
mod versions;
