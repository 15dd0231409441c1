//! The prefix of a grammar's own names.

ghost use Rattle.std.specs.Prelude.{◌≡◌, ◌≢◌, ◌+◌, ◌^◌, ◌<◌, IfOk, string_bytes};
ghost use Rattle.lp_reading.specs.Prefixes.{IsFreePrefix, IsLongestRun};

use std::alloc::{AllocError, Global};

/// The least of `__`, `___` and so on that doesn't stand in a text.
pub fn free_prefix(alloc: Global, input: &str) -> Result<String, AllocError>
    ensures { IfOk result (λ p. IsFreePrefix input.now (string_bytes p)) }
{
    let count = longest_run(input.as_bytes()).max(1);
    let mut prefix = String::from_str(alloc, "_")?;
    for turn in 0..count {
        prefix.push_str("_")?;
    }
    Ok(prefix)
}

/// The length of the longest run of `_` in a text.
fn longest_run(text: &[u8]) -> usize
    ensures { IsLongestRun text.now result }
{
    let mut longest = 0usize;
    let mut run = 0usize;
    for byte in text {
        run = run_after(run, *byte);
        longest = longest.max(run);
    }
    longest
}

/// The run that goes on behind a byte.
fn run_after(run: usize, byte: u8) -> usize
    ensures goes_on { byte ≡ 95 → run + 1 < 2 ^ 64 → result ≡ run + 1 }
    ensures ends { byte ≢ 95 → result ≡ 0 }
{
    if byte == b'_' {
        run.saturating_add(1)
    } else {
        0
    }
}
