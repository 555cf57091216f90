//! Writing a whole text, and knowing how much of it went out.
ghost use Rattle.std.specs.Prelude.{◌≡◌, ◌≤◌, List, MatchResult, Ok, Result, ℕ, length, take};
ghost use Rattle.std.specs.Io.KnownBytes.{Appends};
ghost use Rattle.std.specs.Result.{IsOkAnd};
ghost use Rattle.ecma_stdio.specs.Faults.{fault_status, fault_line};
ghost use Rattle.ecma_stdio.specs.Sending.{Answers, Halts, Sends, TellsOf};

use crate::fault::{Fault, Halt};
use std::io::Write;

/// The answer where a read or a write failed.
pub const FAILED: u8 = 1;

/// Writes until all is out, or a write fails or takes nothing, and says how many bytes went out.
fn write_counting<W: Write>(writer: &mut W, text: &[u8]) -> usize
    ensures within { result ≤ length text.now }
    ensures sent { Appends (W.contents writer.old) (W.contents writer.new) (take result text.now) }
{
    let mut sent = 0;
    'writes: while sent < text.len() {
        match writer.write(&text[sent..]) {
            Ok(0) | Err(_) => return sent,
            Ok(count) => sent += count,
        }
    }
    sent
}

/// Writes the text and answers `status`, or 1 where not all of it went out.
pub fn send<W: Write>(writer: &mut W, status: u8, text: &[u8]) -> u8
    ensures { Sends status text.now (W.contents writer.old) (W.contents writer.new) result }
{
    if write_counting(writer, text) == text.len() {
        status
    } else {
        FAILED
    }
}

/// Tells of the fault, and answers its status, or 1 where not all of its line went out.
pub fn send_fault<W: Write>(writer: &mut W, fault: Fault) -> u8
    ensures { Sends (fault_status fault) (fault_line fault) (W.contents writer.old) (W.contents writer.new) result }
{
    send(writer, fault.status(), fault.line())
}

/// Writes what a program made, or the line of the fault that kept it from that, and answers the exit status: 0, that of the
/// fault, or 1 where a read failed, of which nothing is written, or where not all went out.
pub fn answer<W: Write>(made: Result<Vec<u8>, Halt>, writer: &mut W) -> u8
    ensures tells { MatchResult made
        (λ text. Sends 0 text.items (W.contents writer.old) (W.contents writer.new) result)
        (λ halt. TellsOf halt (W.contents writer.old) (W.contents writer.new) result) }
    // Where what was made is what was to be replied, so is what went out.
    ensures answers { (reply : Result (List ℕ) Fault) → MatchResult made (λ text. reply ≡ Ok text.items) (λ halt. Halts reply halt)
        → Answers reply (W.contents writer.old) (W.contents writer.new) result }
    // Status 0: all went out.
    ensures whole { result ≡ 0 → IsOkAnd made (λ text. Appends (W.contents writer.old) (W.contents writer.new) text.items) }
    // Status 5: the line went out alone.
    ensures refused { result ≡ 5 → Appends (W.contents writer.old) (W.contents writer.new) (fault_line Fault.OutOfMemory) }
{
    match made {
        Ok(text) => send(writer, 0, text.as_slice()),
        Err(Halt::Fault(fault)) => send_fault(writer, fault),
        Err(Halt::ReadFailed) => FAILED,
    }
}
