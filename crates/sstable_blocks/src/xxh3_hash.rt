//! XXH3 as the hash function of blocks: of the hash index, the filters and the checksums.

ghost use Rattle.std.specs.Prelude.{◌≡◌, ◌++◌, ℕ, List, []};
ghost use Rattle.xxh3.specs.Held.{IsFed};
ghost use Rattle.xxh3.specs.Xxh3.{xxh3_64, xxh3_128};
ghost use Rattle.xxh3.specs.Xxh3Laws.{xxh3_128-below};

use sst_base::BlockHash;
use std::marker::Model;
use xxh3::{Stream, xxh3_64, xxh3_128};

/// XXH3 with the seed 0, of 64 bits for keys and of 128 bits for checksums, as lsm-tree stores it.
/// It cannot be continued.
#[derive(Drop)]
pub struct Xxh3 {
    stream: Stream,
}

impl Model for Xxh3 {
    ghost use Rattle.xxh3.specs.declared.state.State.{State};

    ghost Value = { State };

    ghost view = { λ h. h.stream };
}

impl BlockHash for Xxh3 {
    ghost hash64 = { xxh3_64 };

    ghost hash128 = { xxh3_128 };

    ghost has_taken = { λ hash taken. IsFed hash taken };

    ghost hash128_fits = { xxh3_128-below };

    fn hash64(bytes: &[u8]) -> u64 {
        xxh3_64(bytes)
    }

    fn hash128(bytes: &[u8]) -> u128 {
        xxh3_128(bytes)
    }

    fn start() -> Xxh3 {
        Xxh3 {
            stream: Stream::new(),
        }
    }

    fn update(&mut self, bytes: &[u8]) {
        self.stream.update(bytes);
    }

    fn digest128(&self) -> u128 {
        self.stream.digest128()
    }
}
