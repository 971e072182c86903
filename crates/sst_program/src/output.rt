//! Printing.
ghost use Rattle.std.specs.Prelude.{OnOk, IsOkUnless};
ghost use Rattle.std.specs.Io.KnownBytes.{Appends};

use sstable_blocks::{Error, Result};
use std::io::Write;

/// Writes bytes.
///
/// # Errors
///
/// `Error::Io` if the output fails. It may then hold a partial write.
pub fn print_text<O: Write>(output: &mut O, text: &[u8]) -> Result<()>
    ensures printed { OnOk result
        (Appends (O.contents output.old) (O.contents output.new) text.now) }
    ensures cause { IsOkUnless result Error.Io }
{
    output.write_all(text)?;
    output.flush()?;
    Ok(())
}
