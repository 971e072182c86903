//! What writers hold, as ghost state.
ghost use Rattle.std.specs.Prelude.{◌≡◌};

use crate::ghost_state::note::{Note, chosen_note};
use std::collections::LinkedList;
use std::io::Write;
use std::marker::Model;

/// The bytes that a writer held at some moment, if those are known. Ghost state, zero-sized: only
/// clauses read it.
#[derive(Drop)]
pub struct Contents {
    bytes: Note<Option<LinkedList<u8>>>,
}

impl Model for Contents {
    ghost use Rattle.std.specs.Prelude.{ℕ, List, Option};

    ghost Value = { Option (List ℕ) };

    ghost view = { λ c. c.bytes.value };
}

impl Contents {
    /// Notes what a writer holds now.
    pub fn of<W: Write>(writer: &W) -> Contents
        ensures { result ≡ W.contents writer.now }
    {
        Contents {
            bytes: chosen_note(writer, &()),
        }
    }
}
