//! The version of the calls, and what callers without the header need to know.
ghost use Rattle.std.specs.Prelude.{◌≡◌};

// What `SST_VERSION` of the header says. It rises where a call or a struct changes its meaning or
// is removed.
const VERSION: u32 = 4;

/// Returns the version of the calls, for a caller to compare with `SST_VERSION` of its header.
#[unsafe(no_mangle)]
pub extern "C" fn sst_version() -> u32
    ensures { result ≡ 4 }
{
    VERSION
}

// How many bytes `struct sst_open_run` of the header has.
const OPEN_RUN_SIZE: usize = 64;

/// Returns the size of a run that was opened in bytes, for callers without the header.
#[unsafe(no_mangle)]
pub extern "C" fn sst_open_run_size() -> usize
    ensures { result ≡ 64 }
{
    OPEN_RUN_SIZE
}
