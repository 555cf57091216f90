//! A text that is read, and what is gathered of it.
ghost use Rattle.std.specs.Prelude.{◌≡◌, ◌<◌, ◌∷◌, ◌++◌, List, [], is_some, option_map, true, IfOk, OnOk};
ghost use Rattle.ecma_module_table.specs.declared.rows.ModuleOptions.{ModuleOptions};
ghost use Rattle.ecma_module_reader.specs.Readings as readings;
ghost use Rattle.ecma_module_reader.specs.Readings.{Gathers};
ghost use Rattle.ecma_reader.specs.Readers.{Goes, IsReady, Reads, Shows, expected_behind, tokens_found};
ghost use Rattle.ecma_reader.specs.Rereads.{SlashRule};
ghost use Rattle.ecma_state.specs.Ending.{most_tokens};
ghost use Rattle.ecma_state.specs.Session.{Session, lexer_state};
ghost use Rattle.ecma_token.specs.View.{SpannedView, spanned_view};

use ecma_modules::{Gathering, ModuleToken, Region};
use ecma_reader::{Expected, Reader};
use ecma_state::Kept;
use ecma_token::{TokenAndSpan, TokenKind};
use std::alloc::AllocError;

/// The region of an `import`, by what is expected behind it, as far as that is known.
fn region_expected(expected: Option<Expected>) -> Region
    ensures { result ≡ readings.region_expected expected }
{
    match expected {
        Some(expected) => Region::behind(expected.state, expected.top),
        None => Region::Code,
    }
}

/// The region of the token of this kind that was read last.
#[inline]
fn region_read(reader: &mut Reader, kind: TokenKind) -> Result<Region, AllocError>
    ensures region { (rule : SlashRule) (begin : Session) (tokens : List SpannedView) → Shows rule begin tokens reader.old
        → IfOk result (λ region. region ≡ readings.region_of kind (expected_behind rule begin tokens)) }
    ensures shows { (rule : SlashRule) (begin : Session) (tokens : List SpannedView) → Shows rule begin tokens reader.old → Shows rule begin tokens reader.new }
    ensures ready { IsReady reader.old → IsReady reader.new }
    ensures same { lexer_state reader.new.lexer ≡ lexer_state reader.old.lexer }
{
    if !Region::is_asked(kind) {
        return Ok(Region::Code);
    }
    Ok(region_expected(reader.expected()?))
}

/// Takes the token that a reader read last.
#[inline]
fn take_token(
    gathering: &mut Gathering,
    reader: &mut Reader,
    token: &TokenAndSpan,
) -> Result<(), AllocError>
    ensures gathers { (rule : SlashRule) (begin : Session) (tokens : List SpannedView) (options : ModuleOptions) → Shows rule begin (tokens ++ spanned_view token.now ∷ []) reader.old
        → Gathers rule begin options gathering.old tokens → OnOk result (Gathers rule begin options gathering.new (tokens ++ spanned_view token.now ∷ [])) }
    ensures shows { (rule : SlashRule) (begin : Session) (tokens : List SpannedView) → Shows rule begin tokens reader.old → Shows rule begin tokens reader.new }
    ensures ready { IsReady reader.old → IsReady reader.new }
    ensures same { lexer_state reader.new.lexer ≡ lexer_state reader.old.lexer }
{
    let kept = Kept::of(token);
    let region = region_read(reader, kept.kind)?;
    gathering.take(&ModuleToken { kept, region })?;
    Ok(())
}

/// Takes what a reader read last, if there is a token.
#[inline]
fn take_read(
    gathering: &mut Gathering,
    reader: &mut Reader,
    read: &Option<TokenAndSpan>,
) -> Result<(), AllocError>
    ensures gathers { (rule : SlashRule) (begin : Session) (tokens : List SpannedView) (options : ModuleOptions) → Goes rule begin tokens (option_map spanned_view read.now) reader.old
        → Gathers rule begin options gathering.old tokens → OnOk result (Gathers rule begin options gathering.new (tokens ++ tokens_found (option_map spanned_view read.now))) }
    ensures goes { (rule : SlashRule) (begin : Session) (tokens : List SpannedView) → Goes rule begin tokens (option_map spanned_view read.now) reader.old
        → Goes rule begin tokens (option_map spanned_view read.now) reader.new }
    ensures ready { IsReady reader.old → IsReady reader.new }
    ensures same { lexer_state reader.new.lexer ≡ lexer_state reader.old.lexer }
{
    match read {
        Some(token) => take_token(gathering, reader, token),
        None => Ok(()),
    }
}

/// Reads one token more into a slot that is kept, gathers what it tells, and answers whether there was one: the slot is empty
/// at the end. What an `import` is goes by what is expected there, where the reader knows that.
///
/// # Errors
///
/// `AllocError` as of [`Reader::read_into`] and [`Gathering::take`]. What is then gathered is not said, nor which token the slot
/// holds.
#[inline]
pub fn gather_next<'a>(
    gathering: &mut Gathering,
    reader: &mut Reader<'a>,
    slot: &mut Option<TokenAndSpan<'a>>,
) -> Result<bool, AllocError>
    requires ready { IsReady reader.old }
    ensures reads { (rule : SlashRule) (begin : Session) (tokens : List SpannedView) → Shows rule begin tokens reader.old
        → IfOk result (λ more. Reads rule begin tokens (option_map spanned_view slot.new) more reader.new) }
    ensures gathers { (rule : SlashRule) (begin : Session) (tokens : List SpannedView) (options : ModuleOptions) → Shows rule begin tokens reader.old → Gathers rule begin options gathering.old tokens
        → OnOk result (Gathers rule begin options gathering.new (tokens ++ tokens_found (option_map spanned_view slot.new))) }
    ensures told { IfOk result (λ more. more ≡ is_some slot.new) }
    ensures fewer { IfOk result (λ more. more ≡ true → most_tokens (lexer_state reader.new.lexer) < most_tokens (lexer_state reader.old.lexer)) }
    ensures ready { IfOk result (λ more. more ≡ true → IsReady reader.new) }
{
    let more = reader.read_into(slot)?;
    take_read(gathering, reader, slot)?;
    Ok(more)
}
