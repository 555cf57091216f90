//! The listing of a text, as a lexer reads it to its end.
//!
//! Its parts, with `; ` between them: each token, the errors that were recorded, those that wait, where comments are
//! collected each comment as it is handed over, and the contexts at the end, unless they are those of a new lexer. Texts
//! that a token or a comment holds stand in brackets, with `owned` before those that aren't borrowed.
use crate::store::Store;
use ecma_place::{Atom, BytePos, Span, Spanned, StringInput};
use ecma_state::{
    BufferedComment, BufferedCommentKind, Settings as LexerSettings, TokenContext, TokenContexts,
};
use ecma_stream::{Lexer, Tokens, hand_comments};
use ecma_syntax::{Context, EsSyntax, EsVersion, IdentLike, NumberRule, Syntax, TsSyntax, Word};
use ecma_token::{Error, Token, TokenAndSpan};
use std::alloc::{AllocError, Global};

/// More reads than any row takes.
const READS: usize = 4000;

/// What the text of a row is read by.
#[derive(Clone, Copy)]
pub struct Settings {
    pub ts: bool,
    pub jsx: bool,
    pub target: EsVersion,
    pub module: bool,
    pub strict: bool,
    pub in_type: bool,
    pub ignores_errors: bool,
    pub collects_comments: bool,
    pub numbers: NumberRule,
    /// The contexts that the text stands in, the innermost last, where they aren't those of a new lexer.
    pub contexts: Option<&'static [TokenContext]>,
    /// The place where the text starts.
    pub start: u32,
}

/// ECMAScript with every option off.
pub const PLAIN: Settings = Settings {
    ts: false,
    jsx: false,
    target: EsVersion::Es5,
    module: false,
    strict: false,
    in_type: false,
    ignores_errors: false,
    collects_comments: false,
    numbers: NumberRule::Crate,
    contexts: None,
    start: 0,
};

pub const MODULE: Settings = Settings {
    module: true,
    ..PLAIN
};

pub const STRICT: Settings = Settings {
    strict: true,
    ..PLAIN
};

pub const IGNORING: Settings = Settings {
    ignores_errors: true,
    ..PLAIN
};

pub const COLLECTING: Settings = Settings {
    collects_comments: true,
    ..PLAIN
};

pub const STANDARD: Settings = Settings {
    numbers: NumberRule::Standard,
    ..PLAIN
};

pub const TS: Settings = Settings { ts: true, ..PLAIN };

pub const TYPES: Settings = Settings {
    in_type: true,
    ..TS
};

/// A text that doesn't start at 0, for a version that isn't the usual one.
pub const FROM_SEVEN: Settings = Settings {
    start: 7,
    target: EsVersion::Es2020,
    ..PLAIN
};

/// What a text is read by, the text, and its listing.
pub type Row = (Settings, &'static str, &'static str);

/// The language of the text, with every option off that the settings don't name.
fn syntax(settings: Settings) -> Syntax {
    if settings.ts {
        Syntax::Typescript(TsSyntax {
            tsx: settings.jsx,
            ..TsSyntax::default()
        })
    } else {
        Syntax::Es(EsSyntax {
            jsx: settings.jsx,
            ..EsSyntax::default()
        })
    }
}

pub fn flags(settings: Settings) -> Context {
    Context {
        module: settings.module,
        strict: settings.strict,
        in_type: settings.in_type,
        ignore_error: settings.ignores_errors,
        ..Context::default()
    }
}

/// The settings of a lexer.
pub fn lexer_settings(settings: Settings) -> LexerSettings {
    LexerSettings {
        syntax: syntax(settings),
        target: settings.target,
        comments: settings.collects_comments,
        numbers: settings.numbers,
    }
}

/// Sets the context flags of a lexer.
pub fn set_flags(lexer: &mut Lexer, settings: Settings) -> Result<(), AllocError> {
    lexer.set_ctx(flags(settings))
}

/// A lexer of the text, before its context flags and its contexts are set.
pub fn opened<'a>(
    alloc: Global,
    settings: Settings,
    text: &'a str,
) -> Result<Lexer<'a>, AllocError> {
    let start = BytePos(settings.start);
    if !StringInput::fits(text, start) {
        return Err(AllocError);
    }
    let input = StringInput::new(text, start);
    let syntax = syntax(settings);
    let comments = settings.collects_comments;
    Ok(match settings.numbers {
        NumberRule::Crate => Lexer::new(alloc, syntax, settings.target, input, comments),
        rule => Lexer::with_rule(alloc, syntax, settings.target, input, comments, rule),
    })
}

/// These contexts, the innermost last.
pub fn contexts_of(alloc: Global, contexts: &[TokenContext]) -> Result<TokenContexts, AllocError> {
    let mut around = TokenContexts::new(alloc);
    for context in contexts {
        around.push(*context)?;
    }
    Ok(around)
}

/// Puts these contexts, the innermost last, in the place of those that the lexer is in.
fn enter(alloc: Global, lexer: &mut Lexer, contexts: &[TokenContext]) -> Result<(), AllocError> {
    lexer.set_token_context(contexts_of(alloc, contexts)?);
    Ok(())
}

/// Begins a part of a listing.
fn begin(out: &mut String) -> Result<(), AllocError> {
    if out.is_empty() {
        return Ok(());
    }
    out.push_str("; ")
}

/// Writes a part that is these words.
pub fn write_note(out: &mut String, words: &str) -> Result<(), AllocError> {
    begin(out)?;
    out.push_str(words)
}

fn write_span(out: &mut String, span: Span) -> Result<(), AllocError> {
    write!(out, "{}..{}", span.lo.0, span.hi.0)
}

fn write_text(out: &mut String, text: &Atom) -> Result<(), AllocError> {
    let how = if text.is_borrowed() { " [" } else { " owned [" };
    out.push_str(how)?;
    out.push_str(text.as_str())?;
    out.push_str("]")
}

/// Writes where something is wrong, and in which words.
fn write_error(out: &mut String, error: &Error) -> Result<(), AllocError> {
    write_span(out, error.span())?;
    write!(out, " {}", error.kind())
}

fn write_word(out: &mut String, word: &Word) -> Result<(), AllocError> {
    match word {
        Word::Keyword(keyword) => write!(out, "keyword {}", keyword.as_str()),
        Word::Ident(IdentLike::Known(known)) => write!(out, "known {}", known.as_str()),
        Word::Ident(IdentLike::Other(name)) => {
            out.push_str("name")?;
            write_text(out, name)
        }
        Word::Null => out.push_str("null"),
        Word::True => out.push_str("true"),
        Word::False => out.push_str("false"),
    }
}

/// Writes what the text of a template means, or why it means nothing.
fn write_cooked(out: &mut String, cooked: &Result<Atom, Error>) -> Result<(), AllocError> {
    match cooked {
        Ok(text) => write_text(out, text),
        Err(error) => {
            out.push_str(" refused ")?;
            write_error(out, error)
        }
    }
}

/// Writes what a literal or an error holds.
fn write_held(out: &mut String, token: &Token) -> Result<(), AllocError> {
    match token {
        Token::Template { raw, cooked } => {
            write_text(out, raw)?;
            write_cooked(out, cooked)
        }
        Token::Str { value, raw } => {
            write_text(out, value)?;
            write_text(out, raw)
        }
        Token::Num {
            raw,
            radix,
            digits,
            whole,
        } => {
            write_text(out, raw)?;
            write!(out, " {radix:?}")?;
            write_text(out, digits)?;
            write!(out, " {whole:?}")
        }
        Token::BigInt { raw, radix, digits } => {
            write_text(out, raw)?;
            write!(out, " {radix:?}")?;
            write_text(out, digits)
        }
        Token::Regex(body, flags) => {
            write_text(out, body)?;
            write_text(out, flags)
        }
        Token::Shebang(text) => write_text(out, text),
        Token::Error(error) => {
            out.push_str(" ")?;
            write_error(out, error)
        }
        _ => Ok(()),
    }
}

fn write_value(out: &mut String, token: &Token) -> Result<(), AllocError> {
    match token {
        Token::Word(word) => write_word(out, word),
        _ => {
            write!(out, "{:?}", token.kind())?;
            write_held(out, token)
        }
    }
}

fn flag_name(flag: bool) -> &'static str {
    if flag { " lf " } else { " - " }
}

/// Writes a token, and also the flag of the lexer where that is another than the token's.
pub fn write_token(out: &mut String, token: &TokenAndSpan, flag: bool) -> Result<bool, AllocError> {
    begin(out)?;
    write_span(out, token.span)?;
    out.push_str(flag_name(token.had_line_break))?;
    if flag != token.had_line_break {
        out.push_str(flag_name(flag))?;
    }
    write_value(out, &token.token)?;
    Ok(true)
}

/// Writes the next token; whether there was one.
pub fn write_next(out: &mut String, lexer: &mut Lexer) -> Result<bool, AllocError> {
    match lexer.read()? {
        Some(token) => {
            let written = write_token(out, &token, lexer.had_line_break_before_last());
            drop(token);
            written
        }
        None => Ok(false),
    }
}

/// Writes the tokens up to the end, and any that is given behind the end.
pub fn write_tokens(out: &mut String, lexer: &mut Lexer) -> Result<(), AllocError> {
    for _ in 0..READS {
        if !write_next(out, lexer)? {
            break;
        }
    }
    write_next(out, lexer)?;
    Ok(())
}

pub fn write_errors(out: &mut String, what: &str, errors: &[Error]) -> Result<(), AllocError> {
    for error in errors {
        write_note(out, what)?;
        write_error(out, error)?;
    }
    Ok(())
}

pub fn write_recorded(out: &mut String, lexer: &mut Lexer) -> Result<(), AllocError> {
    let errors = lexer.take_errors();
    write_errors(out, "recorded ", errors.as_slice())
}

pub fn write_comment(out: &mut String, comment: &BufferedComment) -> Result<(), AllocError> {
    begin(out)?;
    let side = match comment.kind {
        BufferedCommentKind::Leading => "leading",
        BufferedCommentKind::Trailing => "trailing",
    };
    write!(out, "{side} {} ", comment.pos.0)?;
    write_span(out, comment.comment.span)?;
    write!(out, " {:?}", comment.comment.kind)?;
    write_text(out, &comment.comment.text)
}

pub fn write_comments(out: &mut String, comments: &[BufferedComment]) -> Result<(), AllocError> {
    for comment in comments {
        write_comment(out, comment)?;
    }
    Ok(())
}

/// Hands the comments over, twice; whether both times the end had been answered.
fn hand_twice<'a>(lexer: &mut Lexer<'a>, store: &mut Store<'a>) -> Result<bool, AllocError> {
    Ok(hand_comments(lexer, store)? && hand_comments(lexer, store)?)
}

/// Writes the comments that are handed over. A second call adds none.
fn write_handed(alloc: Global, out: &mut String, lexer: &mut Lexer) -> Result<(), AllocError> {
    let mut store = Store::new(alloc, READS);
    if !hand_twice(lexer, &mut store)? {
        write_note(out, "not at the end")?;
    }
    write_comments(out, store.given.as_slice())
}

/// Writes the contexts, the innermost first, and takes them off.
fn write_contexts(out: &mut String, contexts: &mut TokenContexts) -> Result<(), AllocError> {
    if contexts.len() == 1 && matches!(contexts.current(), Some(TokenContext::BraceStmt)) {
        return Ok(());
    }
    write_note(out, "inside")?;
    for _ in 0..READS {
        match contexts.pop() {
            Some(context) => write!(out, " {context:?}")?,
            None => return Ok(()),
        }
    }
    Ok(())
}

/// Writes what stands behind the tokens.
pub fn write_rest(alloc: Global, out: &mut String, lexer: &mut Lexer) -> Result<(), AllocError> {
    write_recorded(out, lexer)?;
    write_errors(out, "waiting ", lexer.module_errors())?;
    write_handed(alloc, out, lexer)?;
    write_contexts(out, lexer.token_context_mut())
}

/// Writes the listing of a text.
fn write_listing(
    alloc: Global,
    out: &mut String,
    lexer: &mut Lexer,
    settings: Settings,
) -> Result<(), AllocError> {
    set_flags(lexer, settings)?;
    if let Some(contexts) = settings.contexts {
        enter(alloc, lexer, contexts)?;
    }
    write_tokens(out, lexer)?;
    write_rest(alloc, out, lexer)
}

/// The listing of a text.
pub fn listing(alloc: Global, settings: Settings, text: &str) -> Result<String, AllocError> {
    let mut out = String::new(alloc);
    let mut lexer = opened(alloc, settings, text)?;
    write_listing(alloc, &mut out, &mut lexer, settings)?;
    Ok(out)
}
