//! Texts that a number gives, of parts that are hard to read apart.
use ecma_samples::Random;
use ecma_syntax::NumberRule;
use listing::listing::{PLAIN, Settings};
use std::alloc::{AllocError, Global};

/// How many parts a text has at most, and one less.
const PARTS: usize = 40;

/// Parts of texts. Two of the last ones open more contexts, or add more comments, than stand in one place.
const PART: &[&str] = &[
    " ",
    "\n",
    "\r\n",
    "\u{2028}",
    "\u{feff}",
    "a",
    "é",
    "\\u0061",
    "1",
    "0_1",
    "1__2",
    "08",
    "010",
    "0b2",
    "1n",
    "/",
    "/",
    "/=",
    "/b/g",
    "/[/]/",
    "//c\n",
    "/*c*/",
    "/*c\n*/",
    "/*",
    "<!--d\n",
    "\n-->e\n",
    "#!f\n",
    "'g'",
    "'\\01'",
    "\"\\x4\"",
    "'",
    "`",
    "`",
    "`h`",
    "`\\u{`",
    "${",
    "${",
    "}",
    "}",
    "{",
    "(",
    ")",
    "[",
    "]",
    "<",
    ">>",
    "=",
    "=>",
    ";",
    ".",
    "?.",
    "++",
    "#i",
    "@",
    "\\",
    "function ",
    "class ",
    "return ",
    "if(",
    "for(",
    "await ",
    "let ",
    "\n=======\n",
    "((((((((((((((((((((((((((((((((((((((((((((((((((((((((((((((((((((((",
    "/*j*//*j*//*j*//*j*//*j*//*j*//*j*//*j*//*j*//*j*//*j*//*j*//*j*//*j*//*j*//*j*//*j*//*j*//*j*//*j*//*j*//*j*//*j*//*j*//*j*//*j*//*j*//*j*//*j*//*j*//*j*//*j*//*j*//*j*//*j*//*j*//*j*//*j*//*j*//*j*/",
    "`${`${`${`${`${`${`${`${`${`${`${`${`${`${`${`${`${`${`${`${`${`${`${`${`${`${`${`${`${`${`${`${`${`${`${`${`${`${",
];

/// The next text.
pub fn text(alloc: Global, random: &mut Random) -> Result<String, AllocError> {
    let mut out = String::new(alloc);
    for _ in 0..random.below(PARTS) {
        out.push_str(random.pick(PART))?;
    }
    Ok(out)
}

fn one_in(random: &mut Random, count: usize) -> bool {
    random.below(count) == 0
}

/// What the next text is read by.
pub fn settings(random: &mut Random) -> Settings {
    let standard = one_in(random, 4);
    Settings {
        ts: one_in(random, 3),
        module: one_in(random, 5),
        strict: one_in(random, 3),
        in_type: one_in(random, 5),
        ignores_errors: one_in(random, 8),
        collects_comments: !one_in(random, 4),
        numbers: if standard {
            NumberRule::Standard
        } else {
            NumberRule::Crate
        },
        start: if one_in(random, 4) { 7 } else { 0 },
        ..PLAIN
    }
}
