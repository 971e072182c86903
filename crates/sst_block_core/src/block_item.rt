//! Items that blocks hold.
ghost use Rattle.sst_block_core.specs.Kind.{Kind, IsKind};

/// An item of a block, as clauses see it: how it is encoded and decoded, and which items are valid.
///
/// [`Encodable`](crate::Encodable) and [`Decodable`](crate::Decodable) add the calls that do so.
pub trait BlockItem {
    /// The encoding of items: key, sequence number, full and truncated form, and what reads them.
    ghost kind: { Kind Self };

    /// The items within their limits.
    ghost valid: { Self → Type 0 };

    /// What is encoded of valid items is decoded again, and what is decoded was encoded so.
    ghost is_kind: { IsKind kind valid };
}
