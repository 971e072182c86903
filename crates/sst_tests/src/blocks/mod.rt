//! Worked values of the definitions of blocks, and how much calls of iterators count at most.
mod counts;
mod forms;
mod vectors;
