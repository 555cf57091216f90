//! The bytes of a checkpoint. Our own.
ghost use Rattle.std.specs.Prelude.{◌≡◌, ◌<◌, ◌^◌, ◌++◌, ℕ, flat_map, get_or, map, IfOk, OnOk};
ghost use Rattle.std.specs.Int.{w32, w64, to_le_bytes};
ghost use Rattle.ecma_contexts.specs.ContextPairs.{number_of};
ghost use Rattle.ecma_stored.specs.Stored as stored;

use crate::code::code_flags;
use ecma_checkpoint::Checkpoint;
use ecma_contexts::TokenContexts;
use ecma_contexts::context_pair::number_of;
use ecma_kinds::kind_number;
use ecma_span::BytePos;
use ecma_state::kept::Kept;
use std::alloc::{AllocError, Global};

/// The first byte of this form.
const FORM: u8 = 1;

fn place_of(place: Option<BytePos>) -> u32
    ensures { result ≡ stored.place_in place }
{
    match place {
        Some(place) => place.0,
        None => 0,
    }
}

fn kept_kind(kept: Option<Kept>) -> u32
    ensures { result ≡ stored.kept_kind kept }
{
    match kept {
        Some(kept) => u32::from(kind_number(kept.kind)),
        None => 0,
    }
}

fn kept_low(kept: Option<Kept>) -> u32
    ensures { result ≡ stored.kept_low kept }
{
    match kept {
        Some(kept) => kept.span.lo.0,
        None => 0,
    }
}

fn kept_high(kept: Option<Kept>) -> u32
    ensures { result ≡ stored.kept_high kept }
{
    match kept {
        Some(kept) => kept.span.hi.0,
        None => 0,
    }
}

fn kept_flag(kept: Option<Kept>) -> bool
    ensures { result ≡ stored.kept_flag kept }
{
    match kept {
        Some(kept) => kept.flag,
        None => false,
    }
}

/// The numbers of 32 bits.
fn numbers(from: &Checkpoint) -> [u32; 7]
    ensures { result ≡ stored.numbers from.now }
{
    let last = from.state.seen.last;
    [
        from.at.0,
        from.state.start.0,
        from.state.opened.0,
        place_of(from.reread),
        kept_kind(last),
        kept_low(last),
        kept_high(last),
    ]
}

/// The numbers of 64 bits.
fn counts(from: &Checkpoint) -> [usize; 3]
    ensures { result ≡ stored.counts from.now }
{
    [
        from.counts.recorded,
        from.counts.waiting,
        from.counts.comments,
    ]
}

/// The flags that the lexer keeps.
fn own_flags(from: &Checkpoint) -> [bool; 8]
    ensures { result ≡ stored.own_flags from.now }
{
    let last = from.state.seen.last;
    [
        from.state.expr_allowed,
        from.state.seen.first,
        last.is_some(),
        kept_flag(last),
        from.state.seen.flag,
        from.state.seen.ended,
        from.reread.is_some(),
        from.refused,
    ]
}

fn push_bytes(out: &mut Vec<u8>, bytes: &[u8]) -> Result<(), AllocError>
    ensures { OnOk result (out.new.items ≡ out.old.items ++ bytes.now) }
{
    for byte in bytes {
        out.push(*byte)?;
    }
    Ok(())
}

fn push_numbers(out: &mut Vec<u8>, numbers: &[u32]) -> Result<(), AllocError>
    ensures bytes { OnOk result (out.new.items ≡ out.old.items ++ flat_map (to_le_bytes w32) numbers.now) }
    ensures fits { (i : ℕ) → get_or numbers.now i 0 < 2 ^ 32 }
{
    for number in numbers {
        push_bytes(out, &number.to_le_bytes())?;
    }
    Ok(())
}

fn push_counts(out: &mut Vec<u8>, counts: &[usize]) -> Result<(), AllocError>
    ensures bytes { OnOk result (out.new.items ≡ out.old.items ++ flat_map (to_le_bytes w64) counts.now) }
    ensures fits { (i : ℕ) → get_or counts.now i 0 < 2 ^ 64 }
{
    for count in counts {
        push_bytes(out, &count.to_le_bytes())?;
    }
    Ok(())
}

fn push_flags(out: &mut Vec<u8>, flags: &[bool]) -> Result<(), AllocError>
    ensures { OnOk result (out.new.items ≡ out.old.items ++ map stored.byte_of flags.now) }
{
    for flag in flags {
        out.push(u8::from(*flag))?;
    }
    Ok(())
}

/// One byte for each context, the innermost first.
fn push_contexts(out: &mut Vec<u8>, contexts: &TokenContexts) -> Result<(), AllocError>
    ensures { OnOk result (out.new.items ≡ out.old.items ++ map number_of contexts.now) }
{
    let mut left = contexts.copy()?;
    'contexts: while let Some(context) = left.pop() {
        out.push(number_of(context))?;
    }
    Ok(())
}

/// The bytes of a checkpoint, from which [`crate::decode`] makes it again: 90, and one for each context. The first says which
/// form they have.
///
/// # Errors
///
/// `AllocError` where allocation fails for the bytes, and as of [`TokenContexts::copy`].
pub fn encode(alloc: Global, from: &Checkpoint) -> Result<Vec<u8>, AllocError>
    ensures bytes { IfOk result (λ bytes. bytes.items ≡ stored.stored from.now) }
    ensures storable { IfOk result (λ _. stored.IsStorable from.now) }
{
    let mut out = Vec::new(alloc);
    out.push(FORM)?;
    push_numbers(&mut out, &numbers(from))?;
    push_counts(&mut out, &counts(from))?;
    push_flags(&mut out, &own_flags(from))?;
    push_flags(&mut out, &code_flags(&from.context))?;
    push_contexts(&mut out, &from.state.contexts)?;
    Ok(out)
}
