//! What is written of the speed of reading a text.
use crate::timing::Measured;
use std::alloc::{AllocError, Global};
use std::time::Duration;

/// Megabytes, of 1,000,000 bytes each, in a second, in tenths.
fn tenths(bytes: usize, taken: Duration) -> u128 {
    bytes as u128 * 10_000 / taken.as_nanos().max(1)
}

/// A number of tenths with its point.
fn decimal(alloc: Global, tenths: u128) -> Result<String, AllocError> {
    let whole = tenths / 10;
    let rest = tenths % 10;
    format!(in alloc; "{whole}.{rest}")
}

/// Tokens, bytes, and by the shortest and by the middle time megabytes in a second.
pub fn speed_text(alloc: Global, measured: &Measured, bytes: usize) -> Result<String, AllocError> {
    let durations = measured.durations.as_slice();
    let middle = durations.len().saturating_sub(1) / 2;
    let shortest = durations.first().copied().unwrap_or(Duration::ZERO);
    let median = durations.get(middle).copied().unwrap_or(Duration::ZERO);
    let tokens = measured.tokens;
    let best = decimal(alloc, tenths(bytes, shortest))?;
    let median = decimal(alloc, tenths(bytes, median))?;
    format!(in alloc; "{tokens} tokens {bytes} bytes best {best} MB/s median {median} MB/s\n")
}
