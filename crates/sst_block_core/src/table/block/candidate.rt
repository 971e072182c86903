//! Where a search within a restart interval stops.
use crate::table::block::place::Place;
use std::cmp::Ordering;

/// An item at which a search stopped, as it was decoded.
#[derive(Drop)]
pub struct Candidate<Parsed> {
    /// The item.
    pub(crate) item: Parsed,
    /// How its key compares with the needle.
    pub(crate) order: Ordering,
    /// The place after it.
    pub(crate) after: Place,
}
