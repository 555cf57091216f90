//! The texts that are played.
use ecma_place::{BytePos, StringInput};
use ecma_state::{Settings, TokenContext, TokenContexts};
use ecma_stream::{Lexer, Tokens};
use ecma_syntax::{Context, EsVersion, NumberRule, Syntax};
use std::alloc::{AllocError, Global};
use std::io;

/// Texts of which something allocates: numbers, names, strings, templates and regular expressions whose text is not
/// their spelling, errors that are recorded, wait or stand in a token's place, and comments.
pub const TEXTS: &[&str] = &[
    "1__2",
    "a 1_2 08.1 012",
    "0x1_0n 3in",
    "'a\\nb' '\\x4'",
    "`a\r\nb${c}\\u{61}`",
    "`\\u{${1}",
    "\\u0062 \\u0062reak",
    "\0 \\",
    "/x/g\\u0069",
    "a /b\n",
    "/**/a",
    "f() /*a*/ //b",
    "a + /*b*/; /*c*/ /*d*/ /*e*/ f",
    "a\n-->x\nb <!-- c",
    "a\n=======\nb",
    "/*b",
];

/// Opens two contexts more.
pub const DEEP: &str = "((1__2)";

/// Opens twenty contexts more, for which the list of those that are not held in place grows twice.
pub const DEEPER: &str = "((((((((((((((((((((1__2)";

/// Where each text starts.
pub const START: BytePos = BytePos(0);

/// So many contexts do not allocate.
const FREE: usize = 128;

/// By which the texts are read.
pub fn settings() -> Settings {
    Settings {
        syntax: Syntax::default(),
        target: EsVersion::default(),
        comments: true,
        numbers: NumberRule::default(),
    }
}

/// The flags of a module.
pub fn module() -> Context {
    Context {
        module: true,
        ..Context::default()
    }
}

/// A lexer of the text, which does not allocate.
pub fn opened<'a>(alloc: Global, text: &'a str) -> io::Result<Lexer<'a>> {
    if !StringInput::fits(text, START) {
        return Err(io::Error::from(io::ErrorKind::InvalidInput));
    }
    let settings = settings();
    Ok(Lexer::new(
        alloc,
        settings.syntax,
        settings.target,
        StringInput::new(text, START),
        settings.comments,
    ))
}

/// A lexer of the text among as many contexts as do not allocate.
pub fn opened_deep<'a>(alloc: Global, text: &'a str) -> io::Result<Lexer<'a>> {
    let mut lexer = opened(alloc, text)?;
    lexer.set_token_context(contexts(alloc)?);
    Ok(lexer)
}

/// As many contexts as do not allocate.
pub fn contexts(alloc: Global) -> Result<TokenContexts, AllocError> {
    let mut contexts = TokenContexts::new(alloc);
    for _ in 0..FREE {
        contexts.push(TokenContext::ParenExpr)?;
    }
    Ok(contexts)
}
