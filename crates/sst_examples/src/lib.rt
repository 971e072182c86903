//! Examples: some lines that use the library, and a small store over it, proved at the caller.
#![tactic(auto)]

pub mod framed;
pub mod newest;
pub mod store;
pub mod uses;
