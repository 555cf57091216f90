//! What is written of the pieces that cover a text: a line each.
ghost use Rattle.std.specs.Prelude.{◌≡◌, ◌++◌, ◌^◌, ◌<◌, Some, length, MatchResult, OnOk};
ghost use Rattle.ecma_program.specs.ClassLines as rows;
ghost use Rattle.ecma_program.specs.Rereads.{Lacks};

use crate::comments::take_comments;
use crate::kept_tokens::keep_tokens;
use crate::rereads::open;
use ecma_classes::{Piece, classes};
use ecma_names::piece_name;
use ecma_options::Options;
use ecma_place::BytePos;
use ecma_stdio::{Fault, push_pair};
use std::alloc::{AllocError, Global};

/// Adds the line of a piece: where it begins and ends, and its class.
fn push_piece(out: &mut Vec<u8>, piece: Piece) -> Result<(), AllocError>
    ensures { OnOk result (out.new.items ≡ out.old.items ++ rows.piece_line piece) }
{
    push_pair(out, piece.span.lo.0, piece.span.hi.0)?;
    out.extend_from_slice(piece_name(piece.class).as_bytes())?;
    out.push(b'\n')?;
    Ok(())
}

/// Adds the lines of pieces, in order.
fn push_pieces(out: &mut Vec<u8>, pieces: &[Piece]) -> Result<(), AllocError>
    ensures { OnOk result (out.new.items ≡ out.old.items ++ rows.piece_lines pieces.now) }
{
    for piece in pieces {
        push_piece(out, *piece)?;
    }
    Ok(())
}

/// The pieces that cover a text which starts at the place 0, where the tokens with these numbers are read again.
fn pieces(alloc: Global, options: Options, rereads: &[u64], text: &str) -> Result<Vec<Piece>, Fault>
    requires { length text.now < 2 ^ 32 }
    ensures { MatchResult result
        (λ pieces. rows.text_pieces options rereads.now text.now ≡ Some pieces.items)
        (λ fault. Lacks (rows.text_pieces options rereads.now text.now) fault) }
{
    let mut opened = open(alloc, true, options, rereads, text)?;
    let kept = keep_tokens(alloc, &mut opened)?;
    let comments = take_comments(alloc, &mut opened.lexer)?;
    Ok(classes(alloc, text, BytePos(0), &kept, &comments)?)
}

/// The lines of the pieces that cover a text which starts at the place 0, where the tokens with these numbers are read again.
///
/// # Errors
///
/// `NoSlash` where one of those is no slash or isn't there; `OutOfMemory`.
pub fn classes_text(
    alloc: Global,
    options: Options,
    rereads: &[u64],
    text: &str,
) -> Result<Vec<u8>, Fault>
    requires { length text.now < 2 ^ 32 }
    ensures { MatchResult result
        (λ out. rows.classes_text options rereads.now text.now ≡ Some out.items)
        (λ fault. Lacks (rows.classes_text options rereads.now text.now) fault) }
{
    let pieces = pieces(alloc, options, rereads, text)?;
    let mut out = Vec::new(alloc);
    push_pieces(&mut out, &pieces)?;
    Ok(out)
}
