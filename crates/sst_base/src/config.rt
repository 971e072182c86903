//! Configuration of blocks.

/// The hash ratio: the number of buckets per item, as a fraction `num / den`. With `num` 0 there is
/// no hash index.
///
/// `den` is at least 1.
#[derive(Clone, Copy, Debug, PartialEq, Eq)]
pub struct HashRatio {
    /// Numerator: buckets.
    pub num: u32,
    /// Denominator: items.
    pub den: u32,
}
