//! Lines of entries.
ghost use Rattle.std.specs.Prelude.{◌≡◌, ◌++◌, ◌∷◌, [], None, OnOk};
ghost use Rattle.std.specs.Io.KnownBytes.{Appends};
ghost use Rattle.sst_program.specs.Line.{entry_line_of};
ghost use Rattle.sst_tool.specs.Printed.{printed_in};

use crate::fault::{Fault, Result};
use crate::show::{EntryForm, Formed};
use sst_program::entry_printer::{BUFFER_LEN, put_line};
use sstable_blocks::{AsEntry, InternalValue};
use std::alloc::Global;
use std::io::{BufWriter, Write};

/// Where entries are printed, a line each: in a form, or as the program `sst` reads them.
#[derive(Drop)]
pub struct Lines<O: Write + Drop> {
    output: BufWriter<O>,
    // The lines that wait to be printed, which have no form.
    waiting: Vec<u8>,
    form: Option<EntryForm>,
}

impl<O: Write + Drop> Lines<O> {
    /// Wraps an output in a buffer.
    ///
    /// # Errors
    ///
    /// `Fault::Memory` if an allocation fails.
    pub fn new(alloc: Global, output: O, form: Option<EntryForm>) -> Result<Lines<O>> {
        let waiting = Vec::with_capacity(alloc, BUFFER_LEN)?;
        match BufWriter::new(alloc, output) {
            Ok(output) => Ok(Lines {
                output,
                waiting,
                form,
            }),
            Err(_) => Err(Fault::Memory),
        }
    }

    /// Prints an entry.
    ///
    /// # Errors
    ///
    /// `Fault::Output`.
    pub fn print(&mut self, entry: &InternalValue) -> Result<()>
        ensures line { OnOk result (self.old.form ≡ None
            → Appends (printed_in O.contents self.old) (printed_in O.contents self.new)
            (entry_line_of entry.now ++ 10 ∷ [])) }
        ensures same { self.new.form ≡ self.old.form }
    {
        if let Some(form) = self.form {
            writeln!(self.output, "{}", Formed { entry, form })?;
            return Ok(());
        }
        match put_line(&mut self.waiting, &mut self.output, &entry.view()) {
            Ok(()) => Ok(()),
            Err(_) => Err(Fault::Output),
        }
    }

    /// Passes on all that was printed.
    ///
    /// # Errors
    ///
    /// `Fault::Output`.
    pub fn flush(&mut self) -> Result<()> {
        self.output.write_all(&self.waiting)?;
        self.waiting.clear();
        Ok(self.output.flush()?)
    }
}
