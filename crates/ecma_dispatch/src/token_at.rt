//! The token at a place.
ghost use Rattle.std.specs.Prelude.{◌≡◌, ◌≤◌, true, Some, length, slice_get, is_ok, IfOk, IsOk, OnOk};
ghost use Rattle.ecma_place.specs.Cursor.{rest, place, passed};
ghost use Rattle.ecma_token.specs.View.{token_view};
ghost use Rattle.ecma_reads.specs.Found.{found_view, found_at, token_behind, value_view};
ghost use Rattle.ecma_reads.specs.Bars.{opens_bars, bars_comments_at, bars_spelling, bars_token};
ghost use Rattle.ecma_reads.specs.Words.{identifier_name, opens_word};
ghost use Rattle.ecma_state.specs.Mode.{gap_mode};
ghost use Rattle.ecma_state.specs.TokenAt as tokens;

use ecma_place::{Comment, Span, StringInput};
use ecma_reads::{
    Bars, Found, scan_bars, scan_number, scan_punct, scan_string, scan_template, scan_word,
};
use ecma_state::lookahead::Lookahead;
use ecma_state::mode::Mode;
use ecma_syntax::Word;
use ecma_token::{Error, SyntaxError, Token};
use std::alloc::{AllocError, Global};

/// A word as a token, or why it is refused.
fn word_token<'a>(value: Result<Word<'a>, Error<'a>>) -> Result<Token<'a>, Error<'a>>
    ensures { value_view token_view result ≡ tokens.word_value (value_view (λ w. w) value.entry) }
{
    match value {
        Ok(word) => Ok(Token::Word(word)),
        Err(error) => Err(error),
    }
}

/// The word at the cursor as a token.
fn word_at<'a>(
    alloc: Global,
    input: &mut StringInput<'a>,
    mode: &Mode,
) -> Result<Found<'a, Token<'a>>, AllocError>
    requires { opens_word (rest input.old) ≡ true }
    ensures found { IfOk result (λ f. found_view token_view f ≡
        found_at token_behind (place input.old) (tokens.word_token mode.now (rest input.old))) }
    ensures moved { OnOk result
        (input.new ≡ passed (length (tokens.word_token mode.now (rest input.old)).spelling) input.old) }
    ensures free { tokens.is_borrowed_name (identifier_name (rest input.old)).value ≡ true → IsOk result }
{
    let found = scan_word(alloc, input, &mode.context)?;
    let Found {
        value,
        faults,
        extent,
        line_break,
    } = found;
    Ok(Found {
        value: word_token(value),
        faults,
        extent,
        line_break,
    })
}

/// The character at the cursor as an error, since no token begins with it.
fn stray_at<'a>(
    alloc: Global,
    input: &mut StringInput<'a>,
    c: char,
) -> Result<Found<'a, Token<'a>>, AllocError>
    requires { slice_get (rest input.old) 0 ≡ Some c }
    ensures found { IfOk result (λ f. found_view token_view f ≡
        found_at token_behind (place input.old) (tokens.stray (rest input.old))) }
    ensures moved { OnOk result
        (input.new ≡ passed (length (tokens.stray (rest input.old)).spelling) input.old) }
{
    let start = input.cur_pos();
    let error = Error::new(
        alloc,
        Span::new(start, start),
        SyntaxError::UnexpectedChar { c },
    )?;
    input.bump();
    Ok(Found {
        value: Err(error),
        faults: Vec::new(alloc),
        extent: Span::new(start, input.cur_pos()),
        line_break: false,
    })
}

/// The punctuator at the cursor, or the character there as an error.
fn punctuator_at<'a>(
    alloc: Global,
    input: &mut StringInput<'a>,
    mode: &Mode,
    c: char,
) -> Result<Found<'a, Token<'a>>, AllocError>
    requires { slice_get (rest input.old) 0 ≡ Some c }
    ensures found { IfOk result (λ f. found_view token_view f ≡
        found_at token_behind (place input.old) (tokens.other_token mode.now (rest input.old))) }
    ensures moved { OnOk result
        (input.new ≡ passed (length (tokens.other_token mode.now (rest input.old)).spelling) input.old) }
    ensures free { is_ok (tokens.other_token mode.now (rest input.old)).value ≡ true → IsOk result }
{
    let Found {
        value,
        faults,
        extent,
        line_break,
    } = scan_punct(alloc, input, mode.type_mode())?;
    match value {
        Ok(None) => stray_at(alloc, input, c),
        Ok(Some(token)) => Ok(Found {
            value: Ok(token),
            faults,
            extent,
            line_break,
        }),
        Err(error) => Ok(Found {
            value: Err(error),
            faults,
            extent,
            line_break,
        }),
    }
}

/// What was found at a place.
#[derive(Drop)]
pub struct Taken<'a> {
    /// A token, or why what is there is refused.
    pub found: Found<'a, Token<'a>>,
    /// The comments in it, each with whether it is for the next token.
    pub comments: Vec<(Comment<'a>, bool)>,
}

/// The marker of bars at the cursor as an error, with its comments.
fn bars_at<'a>(
    alloc: Global,
    input: &mut StringInput<'a>,
    mode: &Mode,
) -> Result<Taken<'a>, AllocError>
    requires { opens_bars (rest input.old) ≡ true }
    ensures found { IfOk result (λ t. found_view token_view t.found ≡
        found_at token_behind (place input.old) (bars_token (rest input.old))) }
    ensures comments { IfOk result (λ t. t.comments.items ≡
        bars_comments_at (place input.old) (gap_mode mode.now) (rest input.old)) }
    ensures moved { OnOk result (input.new ≡ passed (length (bars_spelling (rest input.old))) input.old) }
{
    let start = input.cur_pos();
    let Some(Bars { gap, error }) = scan_bars(alloc, input, &mode.gap_mode())? else {
        unreachable!()
    };
    Ok(Taken {
        found: Found {
            value: Err(error),
            faults: gap.faults,
            extent: Span::new(start, input.cur_pos()),
            line_break: false,
        },
        comments: gap.comments,
    })
}

/// The token at the cursor, which is before the character `c`, where there is no marker of bars.
fn plain_at<'a>(
    alloc: Global,
    input: &mut StringInput<'a>,
    mode: &Mode,
    lookahead: Lookahead,
    c: char,
) -> Result<Found<'a, Token<'a>>, AllocError>
    requires first { slice_get (rest input.old) 0 ≡ Some c }
    requires opened { mode.now.opened.0 ≤ place input.old }
    requires opens { tokens.Opens lookahead (rest input.old) }
    ensures found { IfOk result (λ f. found_view token_view f ≡
        tokens.placed lookahead mode.now (place input.old) (tokens.read_opened lookahead mode.now (rest input.old))) }
    ensures moved { OnOk result
        (input.new ≡ passed (length (tokens.read_opened lookahead mode.now (rest input.old)).spelling) input.old) }
    ensures free { tokens.is_free_token lookahead (rest input.old) (tokens.read_opened lookahead mode.now (rest input.old)) ≡ true → IsOk result }
{
    match lookahead {
        Lookahead::Template => {
            scan_template(alloc, input, mode.opened, mode.is_after_template())
        }
        Lookahead::Number => scan_number(alloc, input, mode.ts1085(), mode.settings.numbers),
        Lookahead::String => scan_string(alloc, input),
        Lookahead::Word => word_at(alloc, input, mode),
        Lookahead::Bars => unreachable!(),
        Lookahead::Other => punctuator_at(alloc, input, mode, c),
    }
}

/// The token at the cursor, which is before the character `c`, behind a gap with this flag.
pub fn token_at<'a>(
    alloc: Global,
    input: &mut StringInput<'a>,
    mode: &Mode,
    flag: bool,
    c: char,
) -> Result<Taken<'a>, AllocError>
    requires first { slice_get (rest input.old) 0 ≡ Some c }
    requires opened { mode.now.opened.0 ≤ place input.old }
    ensures found { IfOk result (λ t. found_view token_view t.found ≡
        tokens.token_found mode.now flag (place input.old) (rest input.old)) }
    ensures comments { IfOk result (λ t. t.comments.items ≡
        tokens.token_comments mode.now flag (place input.old) (rest input.old)) }
    ensures moved { OnOk result
        (input.new ≡ passed (length (tokens.token_at mode.now flag (rest input.old)).spelling) input.old) }
    ensures free { tokens.is_free_at mode.now flag (rest input.old) ≡ true → IsOk result }
{
    let lookahead = Lookahead::at(input, mode, flag, c);
    if let Lookahead::Bars = lookahead {
        return bars_at(alloc, input, mode);
    }
    Ok(Taken {
        found: plain_at(alloc, input, mode, lookahead, c)?,
        comments: Vec::new(alloc),
    })
}
