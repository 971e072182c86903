//! `get`: one look-up in a table file.
ghost use Rattle.std.specs.Prelude.{◌≡◌, ◌≢◌, ◌⊎◌, ◌+◌, ◌≤◌, ◌<◌, OnOk};
ghost use Rattle.std.specs.Prelude.{IfOk, IfErr, IfSome};
ghost use Rattle.std.specs.Prelude.{IsOkUnless, string_bytes};
ghost use Rattle.std.specs.Io.KnownBytes.{Keeps};
ghost use Rattle.sst_program.specs.Outcome.{answer_text_of, PrintsAnswer, PrintsNothing};
ghost use Rattle.sst_program.specs.Outcome.{IsLibraryRefusal};
ghost use Rattle.sst_program.specs.TableReads.{sst_hashes, PrintsAnswerOf, FailsAround};
ghost use Rattle.sst_program.specs.TableReads.{IsRefusalOf};
ghost use Rattle.sst_program.specs.TableReads.{table_answer, IsTableFault};
ghost use Rattle.sstable_blocks.specs.Results.{Io, Memory};
ghost use Rattle.sstable_blocks.specs.RunReading.{read_checked};
ghost use Rattle.sstable_blocks.specs.Sources.{AsksUpTo, KeepsSource, ReadsAs, UsesSource};
ghost use Rattle.sstable_blocks.specs.Sources.{filter_frames};

use crate::fault;
use crate::lines::answer_line;
use crate::output::print_text;
use crate::table::{open_file, open_run};
use crate::words::GetWords;
use sstable_blocks::{
    Error, FrameSource, InternalValue, Poly31, Result, RunHandles, SeekInput, read_entry_checked,
};
use std::alloc::Global;
use std::io::Write;
use std::rt::Files;

// The first match in a run.
fn find<S: FrameSource>(
    alloc: Global,
    source: &mut S,
    handles: &RunHandles,
    words: &GetWords<'_>,
) -> Result<Option<InternalValue>>
    ensures source { UsesSource S.bytes S.failures S.reads S.is_reliable
        (AsksUpTo (2 + filter_frames handles.now.filter)) source.old source.new result }
    ensures exact { ReadsAs S.bytes S.failures S.is_reliable source.old source.new
        (λ x. x) result (λ all. read_checked sst_hashes all handles.now words.now.needle
        words.now.seqno) }
{
    read_entry_checked::<Poly31, S>(alloc, source, handles, words.needle(), words.seqno())
}

// The line of what is found, with its line feed.
fn answer_text(alloc: Global, found: Option<InternalValue>) -> Result<String>
    ensures ok { IfOk result (λ text. string_bytes text ≡ answer_text_of found) }
    ensures memory { IsOkUnless result Error.Memory }
{
    let mut text = answer_line(alloc, found)?;
    text.push('\n')?;
    Ok(text)
}

/// Prints the entry that is found in a run, or `none`.
///
/// # Errors
///
/// As [`get`], once the file is open.
pub fn print_found<S: FrameSource, O: Write>(
    alloc: Global,
    source: &mut S,
    handles: &RunHandles,
    words: &GetWords<'_>,
    output: &mut O,
) -> Result<()>
    ensures source { KeepsSource S.bytes S.failures S.is_reliable source.old source.new }
    ensures printed { OnOk result (PrintsAnswer (O.contents output.old) (O.contents output.new)) }
    ensures kept { IfErr result
        (λ e. (e ≡ Io) ⊎ Keeps (O.contents output.old) (O.contents output.new)) }
    ensures exact { IfSome (S.bytes source.old) (λ all. OnOk result (PrintsAnswerOf
        (read_checked sst_hashes all handles.now words.now.needle words.now.seqno)
        (O.contents output.old) (O.contents output.new))) }
    ensures refused { IfSome (S.bytes source.old)
        (λ all. IfErr result (λ e. e ≢ Memory → e ≢ Io
        → IsRefusalOf (S.failures source.old < S.failures source.new)
        (read_checked sst_hashes all handles.now words.now.needle words.now.seqno) e)) }
    ensures io { IfSome (S.bytes source.old) (λ all. IfErr result (λ e. e ≡ Io
        → FailsAround (S.failures source.old < S.failures source.new) (S.is_reliable source.old)
        (read_checked sst_hashes all handles.now words.now.needle words.now.seqno))) }
    ensures reads { S.reads source.new
        ≤ S.reads source.old + (2 + filter_frames handles.now.filter) }
{
    let found = find(alloc, source, handles, words)?;
    let text = answer_text(alloc, found)?;
    print_text(output, text.as_bytes())
}

/// Prints the entry that is found in a table file, or `none`. A needle that is too long for a key
/// is looked up like any other. Of the file its footer is read, and the frames that
/// `read_entry_checked` reads.
///
/// # Errors
///
/// `Error::Io` if the file or the output fails, `Error::Truncated` if the file is shorter than a
/// footer, those of `read_entry_checked`, and `Error::Memory` if an allocation fails.
pub fn get_from<F: SeekInput + Drop, O: Write>(
    alloc: Global,
    file: F,
    words: &GetWords<'_>,
    output: &mut O,
) -> fault::Result<()>
    ensures printed { OnOk result (PrintsAnswer (O.contents output.old) (O.contents output.new)) }
    ensures err { IfErr result IsLibraryRefusal }
    ensures kept { IfErr result (PrintsNothing (O.contents output.old) (O.contents output.new)) }

    // Of a file whose bytes are known.
    ensures exact { IfSome (F.whole file) (λ all. OnOk result
        (PrintsAnswerOf (table_answer all words.now.needle words.now.seqno)
        (O.contents output.old) (O.contents output.new))) }
    ensures fault { IfSome (F.whole file) (λ all. IfErr result
        (IsTableFault (F.is_memory file) (table_answer all words.now.needle words.now.seqno))) }
{
    let mut table = open_run(alloc, file)?;
    print_found(alloc, &mut table.source, &table.handles, words, output)?;
    Ok(())
}

/// Opens a table file, and prints the entry that is found in it, or `none`: see [`get_from`].
///
/// # Errors
///
/// `Error::Io` if the file cannot be opened; then those of [`get_from`].
pub fn get<R: Files, O: Write>(
    rt: &R,
    alloc: Global,
    words: &GetWords<'_>,
    output: &mut O,
) -> fault::Result<()>
    ensures printed { OnOk result (PrintsAnswer (O.contents output.old) (O.contents output.new)) }
    ensures err { IfErr result IsLibraryRefusal }
    ensures kept { IfErr result (PrintsNothing (O.contents output.old) (O.contents output.new)) }
{
    get_from(alloc, open_file(rt, words.file())?, words, output)
}
