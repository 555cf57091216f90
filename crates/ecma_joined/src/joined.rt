//! Kept tokens joined to one text.
ghost use Rattle.std.specs.Prelude.{◌≡◌, ◌+◌, ◌<◌, ◌^◌, length, map, string_bytes, encode_utf8_all, IfOk};
ghost use Rattle.std.specs.List.{All};
ghost use Rattle.std.specs.Str.{chars};
ghost use Rattle.clean_runs.specs.Parts.{joint};
ghost use Rattle.ecma_clean.specs.Canonical.{canonical_of, is_template_text, own_in};
ghost use Rattle.ecma_clean.specs.Sharing.{begin};
ghost use Rattle.ecma_joined.specs.Joined.{StandsIn, between_behind};

use ecma_place::{BytePos, StringInput};
use ecma_state::kept::Kept;
use ecma_token::TokenKind;
use std::alloc::{AllocError, Global};

/// What [`canonical_text`] has between the token of a kind, where there is one, and the token behind it: nothing where one of
/// them is template text, else a line feed where the second's flag is set, else one space. It does not allocate.
pub fn between(before: Option<TokenKind>, token: &Kept) -> &'static str
    ensures { result.now ≡ between_behind before token.now }
{
    match before {
        None | Some(TokenKind::Template) => "",
        Some(_) => before_token(token),
    }
}

/// The same behind a token that isn't template text.
fn before_token(token: &Kept) -> &'static str
    ensures { result.now ≡ joint (is_template_text token.now.kind) token.now.flag }
{
    if token.kind == TokenKind::Template {
        ""
    } else if token.flag {
        "\n"
    } else {
        " "
    }
}

/// Joins the tokens that were kept of a text which starts at a place, in order: each by its own characters, and between
/// two of them nothing where one is template text, else a line feed where the second's flag is set, else one space.
///
/// This is a function of what is kept alone. That the text is read to the same tokens holds where they were kept by a clean
/// run of plain steps, as `canonical` of `ecma_canonical` says.
///
/// The caller knows that the text fits its places ([`StringInput::fits`]), and that each span lies in it, on places of the
/// text and its end not before its beginning, as those that `replay` keeps of the same text do. No
/// tokens have the empty text, whatever the source is.
///
/// # Errors
///
/// `AllocError` where allocation fails.
pub fn canonical_text(
    alloc: Global,
    source: &str,
    start: BytePos,
    kept: &[Kept],
) -> Result<String, AllocError>
    requires fits { start.0 + length source.now < 2 ^ 32 }
    requires stand { All (StandsIn (begin start.0 (chars source.now))) kept.now }
    ensures { IfOk result (λ t. string_bytes t ≡ encode_utf8_all (canonical_of (map (own_in (begin start.0 (chars source.now))) kept.now))) }
{
    let input = StringInput::new(source, start);
    let mut text = String::new(alloc);
    let mut before = None;
    'kept: for token in kept {
        text.push_str(between(before, token))?;
        text.push_str(input.slice(token.span.lo, token.span.hi))?;
        before = Some(token.kind);
    }
    Ok(text)
}
