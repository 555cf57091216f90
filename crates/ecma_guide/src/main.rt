//! The examples of docs/GUIDE.md, which shows these functions line by line.
//!
//! `identifiers.rt` reads a whole text, `strings.rt` and `errors.rt` read token by token, `parser.rt` reads as a parser does,
//! `tracked.rt` looks ahead without one, `comments.rt` collects comments, `cache.rt` makes a key of a text's tokens, `steps.rt`
//! plays lists of steps, `faces.rt` writes HTML and imports, and `number.rt` calls one reader. The program runs each, most of
//! them over a text from standard input.
#![tactic(auto)]

ghost use Rattle.std.specs.Prelude.{◌<◌, ◌^◌, length};

mod cache;
mod comments;
mod errors;
mod faces;
mod identifiers;
mod number;
mod parser;
mod steps;
mod strings;
mod tracked;

use ecma_lexer::Settings;
use ecma_lexer::place::{BytePos, StringInput};
use ecma_lexer::syntax::{EsVersion, NumberRule, Syntax};
use std::io;

/// Where each text starts.
const START: BytePos = BytePos(0);

/// How each text is read.
fn settings(comments: bool) -> Settings {
    Settings {
        syntax: Syntax::default(),
        target: EsVersion::EsNext,
        comments,
        numbers: NumberRule::Standard,
    }
}

/// What is read by a reader.
fn read_all(rt: &HostRuntime, text: &str) -> io::Result<()>
    requires { length text.now < 2 ^ 32 }
{
    strings::list_strings(rt, text)?;
    comments::list_comments(rt, text)?;
    let count = comments::count_comments(rt.alloc(), text)?;
    println!(rt; "{count} comments")
}

/// What is made of a whole text.
fn make_all(rt: &HostRuntime, text: &str) -> io::Result<()>
    requires { length text.now < 2 ^ 32 }
{
    cache::write_key(rt, text)?;
    let trivia = steps::count_trivia(rt.alloc(), text)?;
    println!(rt; "{trivia} pieces of trivia")?;
    faces::write_imports(rt, text)?;
    faces::write_page(rt, text)
}

/// A text in TypeScript.
const SLASHES: &str = "let x = a! / b, re = /re/g;\nbreak\n/c d/.test(x)\n";

/// What is read of texts that begin as the examples want it.
fn read_parts(rt: &HostRuntime) -> io::Result<()> {
    let alloc = rt.alloc();
    errors::list_errors(rt, "let a = 08;\n'")?;
    let arrow = parser::begins_with_arrow(alloc, "x => x")?;
    let expression = parser::begins_with_expression(alloc, "/=/.test(x)")?;
    let second = tracked::has_arrow_second(alloc, "/=/ => x")?;
    let kept = steps::count_kept(alloc, "a /b/ c")?;
    println!(rt; "{arrow} {expression} {second} {kept}")?;
    let value = number::whole_value(alloc, &mut StringInput::new("0x1F + 1", START))?;
    println!(rt; "{}", value.unwrap_or(0))
}

fn main(rt: HostRuntime) -> io::Result<()> {
    let text = io::read_to_string(rt.alloc(), rt.stdin())?;
    if !StringInput::fits(&text, START) {
        return Ok(());
    }
    identifiers::write_identifiers(&rt, SLASHES)?;
    read_all(&rt, &text)?;
    make_all(&rt, &text)?;
    read_parts(&rt)
}
