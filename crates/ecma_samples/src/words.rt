//! What stands in the places of patterns: names, numbers, operators and words of comments.
use crate::random::Random;
use std::alloc::AllocError;

/// Names as they are written most.
const SHORT_NAMES: &[&str] = &[
    "i", "a", "x", "y", "z", "e", "t", "n", "v", "id", "el", "this", "this", "this", "key", "max",
    "map", "node", "data", "name", "self", "type", "value", "index", "scope", "array", "length",
    "object", "result", "parent", "source", "options",
];

/// The first parts of longer names.
const FIRST_PARTS: &[&str] = &[
    "get",
    "set",
    "is",
    "has",
    "create",
    "update",
    "find",
    "node",
    "type",
    "symbol",
    "buffer",
    "render",
    "current",
    "declaration",
    "texture",
    "geometry",
];

/// The parts behind them.
const LATER_PARTS: &[&str] = &[
    "Name",
    "Type",
    "Node",
    "List",
    "Index",
    "Count",
    "Value",
    "Options",
    "Handler",
    "Position",
    "Attribute",
    "Declaration",
    "Of",
    "For",
    "At",
    "By",
    "Matrix4",
    "Element",
    "Flags",
    "Text",
];

const NUMBERS: &[&str] = &[
    "0", "1", "2", "0", "1", "10", "16", "255", "1024", "0.5", "1.25", "0xff", "1e3",
];

const OPERATORS: &[&str] = &[
    "+", "-", "*", "===", "!==", "&&", "||", "<", ">", "+", "===", "&&",
];

const COMMENT_WORDS: &[&str] = &[
    "the", "a", "of", "is", "returns", "node", "if", "this", "value", "@param", "{string}", "for",
    "symbol", "where", "not", "type", "must", "be", "cached", "when", "declared", "see", "http://",
    "position",
];

/// Adds a name: half of them short, the others of two or three parts.
fn push_name(out: &mut String, random: &mut Random) -> Result<(), AllocError> {
    if random.below(2) == 0 {
        return out.push_str(random.pick(SHORT_NAMES));
    }
    out.push_str(random.pick(FIRST_PARTS))?;
    out.push_str(random.pick(LATER_PARTS))?;
    if random.below(3) == 0 {
        return out.push_str(random.pick(LATER_PARTS));
    }
    Ok(())
}

/// Adds some words of a comment.
fn push_words(out: &mut String, random: &mut Random) -> Result<(), AllocError> {
    for _ in 0..random.below(12) {
        out.push_str(random.pick(COMMENT_WORDS))?;
        out.push(' ')?;
    }
    Ok(())
}

/// Adds what a character of a pattern stands for: `@` a name, `#` a number, `^` an operator, `~` words of a comment; any other
/// itself.
pub fn push_part(out: &mut String, random: &mut Random, part: char) -> Result<(), AllocError> {
    match part {
        '@' => push_name(out, random),
        '#' => out.push_str(random.pick(NUMBERS)),
        '^' => out.push_str(random.pick(OPERATORS)),
        '~' => push_words(out, random),
        _ => out.push(part),
    }
}
