//! A hash of bytes that come in pieces.
ghost use Rattle.std.specs.Prelude.{◌≡◌, ℕ, List, [], ◌++◌};
ghost use Rattle.xxh3.specs.Held.{IsFed};
ghost use Rattle.xxh3.specs.Xxh3.{xxh3_64, xxh3_128};

use crate::state::State;
use std::marker::Model;

/// A hash of bytes that come in pieces. Takes no memory.
///
/// Clauses say of which bytes it is (`IsFed`), and what it returns for them.
#[derive(Drop)]
pub struct Stream {
    state: State,
}

impl Model for Stream {
    ghost use Rattle.xxh3.specs.declared.state.State.{State};

    ghost Value = { State };

    ghost view = { λ s. s.state };
}

impl Stream {
    /// Starts with no bytes.
    #[inline(always)]
    pub fn new() -> Stream
        ensures { IsFed result [] }
    {
        Stream {
            state: State::new(),
        }
    }

    /// Adds bytes.
    pub fn update(&mut self, bytes: &[u8])
        ensures { (message : List ℕ) → IsFed self.old message
            → IsFed self.new (message ++ bytes.now) }
    {
        self.state.update(bytes);
    }

    /// Returns the hash of all bytes, of 64 bits.
    pub fn digest64(&self) -> u64
        ensures { (message : List ℕ) → IsFed self.now message → result ≡ xxh3_64 message }
    {
        self.state.digest64()
    }

    /// Returns the hash of all bytes, of 128 bits.
    pub fn digest128(&self) -> u128
        ensures { (message : List ℕ) → IsFed self.now message → result ≡ xxh3_128 message }
    {
        self.state.digest128()
    }
}

/// A stream of no bytes.
impl Default for Stream {
    ghost is_default = { λ s. IsFed s [] };

    fn default() -> Stream {
        Stream::new()
    }
}
