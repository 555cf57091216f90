//! Numbers written in decimal digits.
ghost use Rattle.std.specs.Prelude.{◌≡◌, ◌++◌, OnOk, codes};
ghost use Rattle.std.specs.Fmt.{decimal};

use itoa::{Buffer, write_digits};
use std::alloc::AllocError;

/// The most digits that a number of 32 bits has.
const MOST_DIGITS: usize = 10;

/// Two numbers, each with a space behind it.
const PAIR: usize = 2 * (MOST_DIGITS + 1);

/// Adds the decimal digits of a number. Nothing is allocated but room in `out`.
///
/// # Errors
///
/// `AllocError` where there is no memory.
pub fn push_number(out: &mut Vec<u8>, number: usize) -> Result<(), AllocError>
    ensures { OnOk result (out.new.items ≡ out.old.items ++ decimal number) }
{
    let mut buffer = Buffer::new();
    out.extend_from_slice(buffer.format(number).as_bytes())
}

/// Adds the decimal digits of two numbers, as where something begins and ends, each with a space behind it. Nothing is
/// allocated but room in `out`.
///
/// # Errors
///
/// `AllocError` where there is no memory.
pub fn push_pair(out: &mut Vec<u8>, first: u32, second: u32) -> Result<(), AllocError>
    ensures { OnOk result (out.new.items ≡ out.old.items ++ (decimal first ++ (codes " " ++ (decimal second ++ codes " ")))) }
{
    // The digits are written from the last to the first, between spaces that stand there.
    let mut buffer = [b' '; PAIR];
    let behind = write_digits(second as u64, &mut buffer, PAIR - 1);
    let start = write_digits(first as u64, &mut buffer, behind - 1);
    out.extend_from_slice(&buffer[start..])
}
