//! Where the identifiers of a text are.
ghost use Rattle.std.specs.Prelude.{◌<◌, ◌^◌, length};

use crate::START;
use ecma_lexer::syntax::{Context, EsVersion, NumberRule, Syntax, TsSyntax, WordKind};
use ecma_lexer::token::TokenKind;
use ecma_lexer::{LineStarts, Settings, Slashes, tokenize};
use std::io;

/// Writes where each identifier of a text in TypeScript is.
pub(crate) fn write_identifiers(rt: &HostRuntime, text: &str) -> io::Result<()>
    requires { length text.now < 2 ^ 32 }
{
    let settings = Settings {
        syntax: Syntax::Typescript(TsSyntax::default()),
        target: EsVersion::default(),
        comments: false,
        numbers: NumberRule::default(),
    };
    let context = Context::default();
    let lines = LineStarts::of(rt.alloc(), text.as_bytes())?;
    let output = tokenize(rt.alloc(), &settings, context, text, START, Slashes::ByRole)?;
    for token in &output.gathered.kept {
        if let TokenKind::Word(WordKind::Ident(_)) = token.kind {
            let at = lines.position(token.span.lo);
            let name = text.get(token.span.lo.0 as usize..token.span.hi.0 as usize);
            println!(rt; "{}:{} {}", at.line, at.column, name.unwrap_or(""))?;
        }
    }
    Ok(())
}
