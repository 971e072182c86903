//! The words after the program's name.
ghost use Rattle.std.specs.Prelude.{◌≡◌, ◌≤◌, ◌⊎◌, IfErr, IfOk, IfSome};
ghost use Rattle.std.specs.Prelude.{IsOkUnless, map, drop, length};
ghost use Rattle.std.specs.Vec.Iter.{into_iter_items, into_iter_len};
ghost use Rattle.sst_program.specs.Commands.{name_of, file_of, query_of, point_of_words, ratio_of};
ghost use Rattle.sst_program.specs.Commands.{config_of, index_interval_of, packing_of};
ghost use Rattle.sst_program.specs.Commands.{pack_of_words};
ghost use Rattle.sst_program.specs.Commands.{find_of, get_of_words, file_of_words};
ghost use Rattle.sst_program.specs.Commands.{command_of_words};
ghost use Rattle.sst_program.specs.declared.fault.Fault.TheVariants.{Usage, Refused};
ghost use Rattle.sst_program.specs.declared.words.Command.TheVariants.{Point, Pack, Get, Walk};
ghost use Rattle.sst_program.specs.declared.words.Command.TheVariants.{Check};
ghost use Rattle.sst_program.specs.Text.{number_within};
ghost use Rattle.sstable_blocks.specs.Results.{Memory};
ghost use Rattle.sstable_blocks.specs.Run.{IsWritable};
ghost use Rattle.std.specs.Option.{option_map};

use crate::fault::{self, Fault};
use crate::text::{bytes_in, number_in, number_within};
use sstable_blocks::{Error, HashRatio, Result, RunConfig};
use std::alloc::{Allocator, Global};
use std::convert::AsSlice;
use std::env;
use std::env::{Args, Env};
use std::io::ErrorKind;
use std::marker::Model;

// The greatest number of the words but sequence numbers.
const MAX_NUMBER: u64 = 4294967295;

// The greatest restart interval.
const MAX_INTERVAL: u64 = 255;

/// The name of a command.
#[derive(Clone, Copy, Debug, PartialEq, Eq)]
pub enum Name {
    /// `point`
    Point,
    /// `pack`
    Pack,
    /// `get`
    Get,
    /// `walk`
    Walk,
    /// `check`
    Check,
}

/// A command, as the words after the program's name encode it.
#[derive(Drop)]
pub enum Command<'a> {
    /// One block of the input's entries, and a look-up in it.
    Point(PointWords),
    /// A table file of the input's entries.
    Pack(PackWords<'a>),
    /// A look-up in a table file.
    Get(GetWords<'a>),
    /// All entries of a table file.
    Walk(FileName<'a>),
    /// A check of a table file.
    Check(FileName<'a>),
}

/// The name of a file.
#[derive(Drop)]
pub struct FileName<'a> {
    name: &'a str,
}

impl<'a> Model for FileName<'a> {
    ghost use Rattle.std.specs.Prelude.{ℕ, List};

    ghost Value = { List ℕ };

    ghost view = { λ f. f.name.now };
}

impl<'a> FileName<'a> {
    /// Returns the name.
    pub fn as_str(&self) -> &str
        ensures { result.now ≡ self.now }
    {
        self.name
    }
}

/// The words of `point`.
#[derive(Drop)]
pub struct PointWords {
    interval: u8,
    needle: Vec<u8>,
    seqno: u64,
}

impl Model for PointWords {
    ghost use Rattle.std.specs.Prelude.{◌≤◌};
    ghost use Rattle.sst_program.specs.Query.{Query};

    ghost Value = { Query };

    ghost view = { λ w.
        record { interval = w.interval; needle = w.needle.items; seqno = w.seqno } };

    ghost invariant = { λ w. 1 ≤ w.interval };
}

impl PointWords {
    /// Returns the restart interval, at least 1.
    pub fn interval(&self) -> u8
        ensures value { result ≡ self.now.interval }
        ensures some { 1 ≤ result }
    {
        self.interval
    }

    /// Returns the key to look up.
    pub fn needle(&self) -> &[u8]
        ensures { result.now ≡ self.now.needle }
    {
        self.needle.as_slice()
    }

    /// Returns the exclusive upper bound of sequence numbers.
    pub fn seqno(&self) -> u64
        ensures { result ≡ self.now.seqno }
    {
        self.seqno
    }
}

/// The words of `pack`.
#[derive(Drop)]
pub struct PackWords<'a> {
    file: FileName<'a>,
    config: RunConfig,
    per_block: usize,
}

impl<'a> Model for PackWords<'a> {
    ghost use Rattle.std.specs.Prelude.{◌≤◌};
    ghost use Rattle.sst_program.specs.Query.{Packing};
    ghost use Rattle.sstable_blocks.specs.Run.{IsWritable};

    ghost Value = { Packing };

    ghost view = { λ w. record { file = w.file; config = w.config; per_block = w.per_block } };

    ghost invariant = { λ w. IsWritable w.config × (1 ≤ w.per_block) };
}

impl<'a> PackWords<'a> {
    /// Returns the name of the table file.
    pub fn file(&self) -> &str
        ensures { result.now ≡ self.now.file }
    {
        self.file.as_str()
    }

    /// Returns how the run is written. Both intervals and the denominator are at least 1.
    pub fn config(&self) -> RunConfig
        ensures value { result ≡ self.now.config }
        ensures writable { IsWritable result }
    {
        self.config
    }

    /// Returns the number of entries in a block, at least 1.
    pub fn per_block(&self) -> usize
        ensures value { result ≡ self.now.per_block }
        ensures some { 1 ≤ result }
    {
        self.per_block
    }
}

/// The words of `get`.
#[derive(Drop)]
pub struct GetWords<'a> {
    file: FileName<'a>,
    needle: Vec<u8>,
    seqno: u64,
}

impl<'a> Model for GetWords<'a> {
    ghost use Rattle.sst_program.specs.Query.{Lookup};

    ghost Value = { Lookup };

    ghost view = { λ w. record { file = w.file; needle = w.needle.items; seqno = w.seqno } };
}

impl<'a> GetWords<'a> {
    /// Returns the name of the table file.
    pub fn file(&self) -> &str
        ensures { result.now ≡ self.now.file }
    {
        self.file.as_str()
    }

    /// Returns the key to look up.
    pub fn needle(&self) -> &[u8]
        ensures { result.now ≡ self.now.needle }
    {
        self.needle.as_slice()
    }

    /// Returns the exclusive upper bound of sequence numbers.
    pub fn seqno(&self) -> u64
        ensures { result ≡ self.now.seqno }
    {
        self.seqno
    }
}

/// Returns the command that these words encode, or `None` if they encode none. A word is
/// any byte string.
///
/// # Errors
///
/// `Error::Memory` if an allocation fails.
pub fn command_in<'a, W: AsSlice<u8>>(alloc: Global, words: &'a [W]) -> Result<Option<Command<'a>>>
    ensures ok { IfOk result (λ found. found ≡ command_of_words (map W.items words.now)) }
    ensures memory { IsOkUnless result Error.Memory }
{
    let Some((name, words)) = words.split_first() else {
        return Ok(None);
    };
    match name_in(name.as_slice()) {
        Some(Name::Point) => point_words(alloc, words),
        Some(Name::Pack) => Ok(pack_words(words)),
        Some(Name::Get) => get_words(alloc, words),
        Some(Name::Walk) => Ok(walk_words(words)),
        Some(Name::Check) => Ok(check_words(words)),
        None => Ok(None),
    }
}

// The command that a word names.
#[tactic(auto, unfolding(crate::specs::Commands::name_of))]
fn name_in(word: &[u8]) -> Option<Name>
    ensures { result ≡ name_of word.now }
{
    if word == b"point".as_slice() {
        Some(Name::Point)
    } else if word == b"pack".as_slice() {
        Some(Name::Pack)
    } else if word == b"get".as_slice() {
        Some(Name::Get)
    } else if word == b"walk".as_slice() {
        Some(Name::Walk)
    } else if word == b"check".as_slice() {
        Some(Name::Check)
    } else {
        None
    }
}

// The file that a word names.
fn file_in(word: &[u8]) -> Option<FileName<'_>>
    ensures { result ≡ file_of word.now }
{
    match std::str::from_utf8(word) {
        Ok(name) => Some(FileName { name }),
        Err(_) => None,
    }
}

// INTERVAL KEYHEX SEQNO
fn point_words<'a, W: AsSlice<u8>>(alloc: Global, words: &'a [W]) -> Result<Option<Command<'a>>>
    ensures ok { IfOk result
        (λ found. found ≡ option_map Point (point_of_words (map W.items words.now))) }
    ensures memory { IsOkUnless result Error.Memory }
{
    let [interval, key, seqno] = words else {
        return Ok(None);
    };
    match query_in(alloc, interval.as_slice(), key.as_slice(), seqno.as_slice())? {
        Some(words) => Ok(Some(Command::Point(words))),
        None => Ok(None),
    }
}

// The words of `point`, of which there are three.
#[tactic(auto, unfolding(crate::specs::Commands::query_of))]
fn query_in(alloc: Global, interval: &[u8], key: &[u8], seqno: &[u8]) -> Result<Option<PointWords>>
    ensures ok { IfOk result (λ found. found ≡ query_of interval.now key.now seqno.now) }
    ensures memory { IsOkUnless result Error.Memory }
{
    let (Some(interval), Some(seqno)) = (interval_in(interval), number_in(seqno)) else {
        return Ok(None);
    };
    match bytes_in(alloc, key)? {
        Some(needle) => Ok(Some(PointWords {
            interval,
            needle,
            seqno,
        })),
        None => Ok(None),
    }
}

// FILE INTERVAL NUM DEN BITS PER_BLOCK [INDEX_INTERVAL]
fn pack_words<'a, W: AsSlice<u8>>(words: &'a [W]) -> Option<Command<'a>>
    ensures { result ≡ option_map Pack (pack_of_words (map W.items words.now)) }
{
    let [file, interval, num, den, bits, per_block, rest @ ..] = words else {
        return None;
    };
    let ratio = ratio_in(num.as_slice(), den.as_slice());
    let config = config_in(
        interval.as_slice(),
        ratio,
        bits.as_slice(),
        index_interval_in(rest),
    );
    match packing_in(file.as_slice(), config, per_block.as_slice()) {
        Some(words) => Some(Command::Pack(words)),
        None => None,
    }
}

// The words of `pack`: a file, how it is written, and PER_BLOCK.
#[tactic(auto, unfolding(crate::specs::Commands::packing_of))]
fn packing_in<'a>(
    file: &'a [u8],
    config: Option<RunConfig>,
    per_block: &[u8],
) -> Option<PackWords<'a>>
    requires { IfSome config IsWritable }
    ensures { result ≡ packing_of file.now config per_block.now }
{
    let file = file_in(file)?;
    let config = config?;
    let per_block = number_within(per_block, 1, MAX_NUMBER)?;
    Some(PackWords {
        file,
        config,
        per_block: per_block as usize,
    })
}

// NUM DEN
#[tactic(auto, unfolding(crate::specs::Commands::ratio_of))]
fn ratio_in(num: &[u8], den: &[u8]) -> Option<HashRatio>
    ensures value { result ≡ ratio_of num.now den.now }
    ensures den { IfSome result (λ ratio. 1 ≤ ratio.den) }
{
    let num = number_within(num, 0, MAX_NUMBER)?;
    let den = number_within(den, 1, MAX_NUMBER)?;
    Some(HashRatio {
        num: num as u32,
        den: den as u32,
    })
}

// INTERVAL, a ratio, BITS and the index interval
#[tactic(auto, unfolding(crate::specs::Commands::config_of))]
fn config_in(
    interval: &[u8],
    ratio: Option<HashRatio>,
    bits: &[u8],
    index_interval: Option<u8>,
) -> Option<RunConfig>
    requires den { IfSome ratio (λ r. 1 ≤ r.den) }
    requires index_interval { IfSome index_interval (λ q. 1 ≤ q) }
    ensures value { result ≡ config_of interval.now ratio bits.now index_interval }
    ensures writable { IfSome result IsWritable }
{
    let restart_interval = interval_in(interval)?;
    let ratio = ratio?;
    let bits = number_within(bits, 0, MAX_NUMBER)?;
    let index_interval = index_interval?;
    Some(RunConfig {
        restart_interval,
        ratio,
        bits_per_key: bits as u32,
        index_interval,
    })
}

// A restart interval, from 1 to 255.
fn interval_in(word: &[u8]) -> Option<u8>
    ensures value { result ≡ number_within 1 255 word.now }
    ensures some { IfSome result (λ interval. 1 ≤ interval) }
{
    match number_within(word, 1, MAX_INTERVAL) {
        Some(interval) => Some(interval as u8),
        None => None,
    }
}

// [INDEX_INTERVAL], 1 in its absence
fn index_interval_in<W: AsSlice<u8>>(words: &[W]) -> Option<u8>
    ensures value { result ≡ index_interval_of (map W.items words.now) }
    ensures some { IfSome result (λ interval. 1 ≤ interval) }
{
    match words {
        [] => Some(1),
        [word] => interval_in(word.as_slice()),
        _ => None,
    }
}

// FILE KEYHEX SEQNO
fn get_words<'a, W: AsSlice<u8>>(alloc: Global, words: &'a [W]) -> Result<Option<Command<'a>>>
    ensures ok { IfOk result
        (λ found. found ≡ option_map Get (get_of_words (map W.items words.now))) }
    ensures memory { IsOkUnless result Error.Memory }
{
    let [file, key, seqno] = words else {
        return Ok(None);
    };
    match lookup_in(alloc, file.as_slice(), key.as_slice(), seqno.as_slice())? {
        Some(words) => Ok(Some(Command::Get(words))),
        None => Ok(None),
    }
}

// The words of `get`, of which there are three.
#[tactic(auto, unfolding(crate::specs::Commands::find_of))]
fn lookup_in<'a>(
    alloc: Global,
    file: &'a [u8],
    key: &[u8],
    seqno: &[u8],
) -> Result<Option<GetWords<'a>>>
    ensures ok { IfOk result (λ found. found ≡ find_of file.now key.now seqno.now) }
    ensures memory { IsOkUnless result Error.Memory }
{
    let (Some(file), Some(seqno)) = (file_in(file), number_in(seqno)) else {
        return Ok(None);
    };
    match bytes_in(alloc, key)? {
        Some(needle) => Ok(Some(GetWords {
            file,
            needle,
            seqno,
        })),
        None => Ok(None),
    }
}

// FILE of `walk`
fn walk_words<'a, W: AsSlice<u8>>(words: &'a [W]) -> Option<Command<'a>>
    ensures { result ≡ option_map Walk (file_of_words (map W.items words.now)) }
{
    match file_word(words) {
        Some(file) => Some(Command::Walk(file)),
        None => None,
    }
}

// FILE of `check`
fn check_words<'a, W: AsSlice<u8>>(words: &'a [W]) -> Option<Command<'a>>
    ensures { result ≡ option_map Check (file_of_words (map W.items words.now)) }
{
    match file_word(words) {
        Some(file) => Some(Command::Check(file)),
        None => None,
    }
}

// FILE
fn file_word<W: AsSlice<u8>>(words: &[W]) -> Option<FileName<'_>>
    ensures { result ≡ file_of_words (map W.items words.now) }
{
    match words {
        [file] => file_in(file.as_slice()),
        _ => None,
    }
}

/// Returns all words but the first, which is the program's name.
///
/// # Errors
///
/// `Error::Memory` if an allocation fails.
pub fn words_after_name<A: Allocator>(alloc: A, words: Args<A>) -> Result<Vec<String<A>, A>>
    // Every iterator has as many items as its length says, which std's clauses leave out.
    ensures ok { IfOk result (λ rest. into_iter_len words ≡ length (into_iter_items words)
        → rest.items ≡ drop 1 (into_iter_items words)) }
    ensures memory { IsOkUnless result Error.Memory }
{
    Ok(words.skip(1).collect(alloc)?)
}

/// Returns the program's arguments without its name: see [`words_after_name`].
///
/// # Errors
///
/// `Fault::Usage` if an argument is not UTF-8, and `Error::Memory` if an allocation fails.
pub fn words_of<R: Env + Alloc>(rt: &R) -> fault::Result<Vec<String<R::A>, R::A>>
    ensures err { IfErr result (λ fault. (fault ≡ Usage) ⊎ (fault ≡ Refused Memory)) }
{
    match env::args(rt) {
        Ok(words) => Ok(words_after_name(rt.alloc(), words)?),
        Err(error) if error.kind() == ErrorKind::InvalidData => Err(Fault::Usage),
        Err(_) => Err(Fault::Refused(Error::Memory)),
    }
}
