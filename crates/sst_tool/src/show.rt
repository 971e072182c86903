//! Byte strings and entries as text.
use sst_program::lines::letter_of;
use sstable_blocks::InternalValue;
use std::fmt;

/// Bytes as people read them: `-` for none, the text itself where all are printable ASCII without a
/// space, and else `hex:` and hex digits.
#[derive(Drop)]
pub struct Shown<'a>(pub &'a [u8]);

/// Bytes in lower-case hex.
#[derive(Drop)]
pub struct Hex<'a>(pub &'a [u8]);

/// A number of things with the word for one and that for several: `1 entry`, `2 entries`.
#[derive(Clone, Copy)]
pub struct Counted {
    /// The number.
    pub count: u64,
    /// The word for one.
    pub one: &'static str,
    /// The word for another number.
    pub several: &'static str,
}

impl Counted {
    /// Returns a number of entries.
    pub fn entries(count: u64) -> Counted {
        Counted {
            count,
            one: "entry",
            several: "entries",
        }
    }

    /// Returns a number of blocks.
    pub fn blocks(count: u64) -> Counted {
        Counted {
            count,
            one: "block",
            several: "blocks",
        }
    }

    /// Returns a number of parts.
    pub fn parts(count: u64) -> Counted {
        Counted {
            count,
            one: "part",
            several: "parts",
        }
    }

    /// Returns a number of tables.
    pub fn tables(count: u64) -> Counted {
        Counted {
            count,
            one: "table",
            several: "tables",
        }
    }
}

impl fmt::Display for Counted {
    fn fmt<W: fmt::Write>(&self, f: &mut fmt::Formatter<W>) -> fmt::Result {
        let word = if self.count == 1 {
            self.one
        } else {
            self.several
        };
        write!(f, "{} {word}", self.count)
    }
}

/// How the byte strings of an entry are written.
#[derive(Clone, Copy, PartialEq, Eq)]
pub enum Style {
    /// In hex.
    Hex,
    /// As people read them.
    Text,
    /// In hex, as members of a line of JSON.
    Json,
}

/// How an entry is written.
#[derive(Clone, Copy)]
pub struct EntryForm {
    /// How its byte strings are.
    pub style: Style,
    /// Whether its value is.
    pub has_value: bool,
}

/// An entry in a form: the letter of its type, the sequence number, key and value.
#[derive(Drop)]
pub struct Formed<'a> {
    /// The entry.
    pub entry: &'a InternalValue,
    /// The form.
    pub form: EntryForm,
}

// Whether bytes can be shown as they are.
fn is_plain(bytes: &[u8]) -> bool {
    for byte in bytes.iter() {
        if !byte.is_ascii_graphic() {
            return false;
        }
    }
    !bytes.starts_with(b"hex:") && bytes != b"-".as_slice()
}

// Writes bytes that can be shown as they are.
fn write_plain<W: fmt::Write>(f: &mut fmt::Formatter<W>, bytes: &[u8]) -> fmt::Result {
    for byte in bytes.iter() {
        write!(f, "{}", *byte as char)?;
    }
    Ok(())
}

impl<'a> fmt::Display for Shown<'a> {
    fn fmt<W: fmt::Write>(&self, f: &mut fmt::Formatter<W>) -> fmt::Result {
        if self.0.is_empty() {
            return f.write_str("-");
        }
        if !is_plain(self.0) {
            return write!(f, "hex:{}", Hex(self.0));
        }
        write_plain(f, self.0)
    }
}

impl<'a> fmt::Display for Hex<'a> {
    fn fmt<W: fmt::Write>(&self, f: &mut fmt::Formatter<W>) -> fmt::Result {
        for byte in self.0.iter() {
            write!(f, "{byte:02x}")?;
        }
        Ok(())
    }
}

// Writes a byte string of an entry, after a space.
fn write_part<W: fmt::Write>(f: &mut fmt::Formatter<W>, style: Style, bytes: &[u8]) -> fmt::Result {
    match style {
        Style::Text => write!(f, " {}", Shown(bytes)),
        _ => write!(f, " {}", Hex(bytes)),
    }
}

// Writes an entry as a line of JSON.
fn write_json<W: fmt::Write>(
    f: &mut fmt::Formatter<W>,
    entry: &InternalValue,
    has_value: bool,
) -> fmt::Result {
    let key = entry.key();
    let (letter, seqno) = (letter_of(key.value_type()), key.seqno());
    let user_key = Hex(key.user_key().as_slice());
    write!(
        f,
        "{{\"type\":\"{letter}\",\"seqno\":{seqno},\"key\":\"{user_key}\""
    )?;
    if has_value {
        write!(f, ",\"value\":\"{}\"", Hex(entry.value().as_slice()))?;
    }
    f.write_str("}")
}

impl<'a> fmt::Display for Formed<'a> {
    fn fmt<W: fmt::Write>(&self, f: &mut fmt::Formatter<W>) -> fmt::Result {
        let EntryForm { style, has_value } = self.form;
        if style == Style::Json {
            return write_json(f, self.entry, has_value);
        }
        let key = self.entry.key();
        write!(f, "{} {}", letter_of(key.value_type()), key.seqno())?;
        write_part(f, style, key.user_key().as_slice())?;
        if has_value {
            write_part(f, style, self.entry.value().as_slice())?;
        }
        Ok(())
    }
}
