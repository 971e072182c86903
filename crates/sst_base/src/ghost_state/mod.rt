//! Ghost state: counters, histories and contents that only clauses read. All of it is zero-sized.
pub mod contents;
pub mod count;
pub mod history;
mod note;
pub mod steps;

pub use contents::Contents;
pub use count::Count;
pub use history::History;
pub use steps::Steps;
