//! Blocks of a table file, as faults name them.
use sstable_blocks::RunHandles;
use std::fmt;

/// A block of a table file.
#[derive(Clone, Copy)]
pub enum TableBlock {
    /// A data block, by its index.
    Data(usize),
    /// The index.
    Index,
    /// The filter.
    Filter,
    /// A part of a parted table, by its index.
    Part(usize),
}

impl TableBlock {
    /// Returns the data block of a number, or of a table in parts the part.
    pub fn numbered(is_parted: bool, number: usize) -> TableBlock {
        if is_parted {
            TableBlock::Part(number)
        } else {
            TableBlock::Data(number)
        }
    }
}

impl fmt::Display for TableBlock {
    fn fmt<W: fmt::Write>(&self, f: &mut fmt::Formatter<W>) -> fmt::Result {
        match self {
            TableBlock::Data(index) => write!(f, "block {index}"),
            TableBlock::Index => f.write_str("index"),
            TableBlock::Filter => f.write_str("filter"),
            TableBlock::Part(index) => write!(f, "part {index}"),
        }
    }
}

/// Returns which of index and filter is at an offset, by the footer.
pub fn footer_block_at(handles: &RunHandles, offset: u64) -> Option<TableBlock> {
    if *handles.index.offset() == offset {
        return Some(TableBlock::Index);
    }
    match &handles.filter {
        Some(filter) if *filter.offset() == offset => Some(TableBlock::Filter),
        _ => None,
    }
}
