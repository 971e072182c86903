//! The worked run, and worked values of the definitions.
mod vectors;
pub(crate) mod worked;
