//! Where tables are written.
ghost use Rattle.std.specs.Prelude.{◌≡◌, ◌++◌, ◌∷◌, [], ℕ, List, Option, IfErr, IfOk, OnOk};
ghost use Rattle.sst_merge.specs.Outputs.{Output};
ghost use Rattle.sstable_blocks.specs.Results.{Error};

use sstable_blocks::{Result, RunHandles};

/// Where an engine has its tables written: it opens a writer for each, and closes it.
pub trait Outputs {
    /// What a table is written into.
    type Writer: sstable_blocks::Output + Drop;

    // The tables closed.
    ghost tables: { Self → List Output };

    // What is known of the bytes of a writer that was just opened: none, or nothing.
    ghost start: { Option (List ℕ) };

    // The errors by which opening or closing a writer may fail.
    ghost may_fail: { Error → Type 0 };

    /// Opens a writer for the next table, which holds nothing yet.
    ///
    /// # Errors
    ///
    /// Those of what is opened.
    fn open(&mut self) -> Result<Self::Writer>
        ensures fresh { IfOk result (λ writer. Self.Writer.contents writer ≡ start) }
        ensures same { tables self.new ≡ tables self.old }
        ensures cause { IfErr result may_fail };

    /// Closes the writer of a table with these handles: here a footer is written, and a file is
    /// synced.
    ///
    /// # Errors
    ///
    /// Those of what is closed.
    fn close(&mut self, handles: RunHandles, writer: Self::Writer) -> Result<()>
        ensures closed { OnOk result (tables self.new ≡ tables self.old
            ++ record { handles = handles; bytes = Self.Writer.contents writer } ∷ []) }
        ensures cause { IfErr result may_fail };
}
