//! The bytes of the messages of the lexer's errors, and of those that hold something.

use super::{assert_message, span};
use ecma_span::Atom;
use ecma_token::{Error, Radix, SyntaxError, Token};
use std::alloc::{AllocError, Global};
use std::process::Abort;
use std::test::Fail;

// An error that owns nothing, and what it holds. A table cannot hold the errors themselves: its proof would go
// through the end of each of them.
#[derive(Clone, Copy)]
enum Held {
    LegacyDecimal,
    LegacyOctal,
    InvalidIdentChar,
    UnterminatedBlockComment,
    UnterminatedStrLit,
    ExpectedUnicodeEscape,
    UnterminatedRegExp,
    UnterminatedTpl,
    IdentAfterNum,
    InvalidStrEscape,
    InvalidUnicodeEscape,
    NumLitTerminatedWithExp,
    LegacyCommentInModule,
    NumericSeparatorIsAllowedOnlyBetweenTwoDigits,
    TS1085,
    TS1185,
    ExpectedDigit(Radix),
    UnexpectedChar(char),
    EscapeInReservedWord(&'static str),
    BadCharacterEscapeSequence(&'static str),
}

impl Held {
    fn error(self) -> SyntaxError<'static> {
        match self {
            Held::LegacyDecimal => SyntaxError::LegacyDecimal,
            Held::LegacyOctal => SyntaxError::LegacyOctal,
            Held::InvalidIdentChar => SyntaxError::InvalidIdentChar,
            Held::UnterminatedBlockComment => SyntaxError::UnterminatedBlockComment,
            Held::UnterminatedStrLit => SyntaxError::UnterminatedStrLit,
            Held::ExpectedUnicodeEscape => SyntaxError::ExpectedUnicodeEscape,
            Held::UnterminatedRegExp => SyntaxError::UnterminatedRegExp,
            Held::UnterminatedTpl => SyntaxError::UnterminatedTpl,
            Held::IdentAfterNum => SyntaxError::IdentAfterNum,
            Held::InvalidStrEscape => SyntaxError::InvalidStrEscape,
            Held::InvalidUnicodeEscape => SyntaxError::InvalidUnicodeEscape,
            Held::NumLitTerminatedWithExp => SyntaxError::NumLitTerminatedWithExp,
            Held::LegacyCommentInModule => SyntaxError::LegacyCommentInModule,
            Held::NumericSeparatorIsAllowedOnlyBetweenTwoDigits => {
                SyntaxError::NumericSeparatorIsAllowedOnlyBetweenTwoDigits
            }
            Held::TS1085 => SyntaxError::TS1085,
            Held::TS1185 => SyntaxError::TS1185,
            Held::ExpectedDigit(radix) => SyntaxError::ExpectedDigit { radix },
            Held::UnexpectedChar(c) => SyntaxError::UnexpectedChar { c },
            Held::EscapeInReservedWord(word) => SyntaxError::EscapeInReservedWord {
                word: Atom::from(word),
            },
            Held::BadCharacterEscapeSequence(expected) => {
                SyntaxError::BadCharacterEscapeSequence { expected }
            }
        }
    }
}

const OF_THE_LEXER: &[(Held, &str)] = &[
    (
        Held::LegacyDecimal,
        "Legacy decimal escape is not permitted in strict mode",
    ),
    (
        Held::LegacyOctal,
        "Legacy octal escape is not permitted in strict mode",
    ),
    (Held::InvalidIdentChar, "Invalid character in identifier"),
    (Held::UnterminatedBlockComment, "Unterminated block comment"),
    (Held::UnterminatedStrLit, "Unterminated string constant"),
    (Held::ExpectedUnicodeEscape, "Expected unicode escape"),
    (Held::UnterminatedRegExp, "Unterminated regexp literal"),
    (Held::UnterminatedTpl, "Unterminated template"),
    (Held::IdentAfterNum, "Identifier cannot follow number"),
    (Held::InvalidStrEscape, "Invalid string escape"),
    (Held::InvalidUnicodeEscape, "Invalid unicode escape"),
    (
        Held::NumLitTerminatedWithExp,
        "Expected +, - or decimal digit after e",
    ),
    (
        Held::LegacyCommentInModule,
        "Legacy comments cannot be used in module code",
    ),
    (
        Held::NumericSeparatorIsAllowedOnlyBetweenTwoDigits,
        "A numeric separator is only allowed between two digits",
    ),
    (
        Held::TS1085,
        "Legacy octal literals are not available when targeting ECMAScript 5 and higher",
    ),
    (Held::TS1185, "Merge conflict marker encountered."),
    (
        Held::ExpectedDigit(Radix::Binary),
        "Expected a binary digit",
    ),
    (Held::ExpectedDigit(Radix::Octal), "Expected an octal digit"),
    (
        Held::ExpectedDigit(Radix::Decimal),
        "Expected a decimal digit",
    ),
    (
        Held::ExpectedDigit(Radix::Hex),
        "Expected a hexadecimal digit",
    ),
    (Held::UnexpectedChar('\''), "Unexpected character '\\''"),
    (Held::UnexpectedChar('\\'), "Unexpected character '\\\\'"),
    (Held::UnexpectedChar('\0'), "Unexpected character '\\0'"),
    (Held::UnexpectedChar('\t'), "Unexpected character '\\t'"),
    (Held::UnexpectedChar('\n'), "Unexpected character '\\n'"),
    (Held::UnexpectedChar('\r'), "Unexpected character '\\r'"),
    (
        Held::UnexpectedChar('\u{1}'),
        "Unexpected character '\\u{1}'",
    ),
    (
        Held::UnexpectedChar('\u{1f}'),
        "Unexpected character '\\u{1f}'",
    ),
    (
        Held::UnexpectedChar('\u{7f}'),
        "Unexpected character '\\u{7f}'",
    ),
    (Held::UnexpectedChar('"'), "Unexpected character '\"'"),
    (
        Held::UnexpectedChar('\u{85}'),
        "Unexpected character '\u{85}'",
    ),
    (Held::UnexpectedChar('é'), "Unexpected character 'é'"),
    (
        Held::UnexpectedChar('\u{1f600}'),
        "Unexpected character '😀'",
    ),
    (
        Held::EscapeInReservedWord("break"),
        "Unexpected escape sequence in reserved word: break",
    ),
    (
        Held::BadCharacterEscapeSequence("1-6 hex characters"),
        "Bad character escape sequence, expected 1-6 hex characters",
    ),
];

#[test]
fn lexer_messages(rt: HostRuntime) -> Result<(), Fail> {
    for (held, want) in OF_THE_LEXER {
        assert_message(&rt, rt.alloc(), held.error(), want)?;
    }
    Ok(())
}

fn assert_suggestions(
    rt: &impl Abort,
    alloc: Global,
    candidates: &[&'static str],
    want: &str,
) -> Result<(), Fail> {
    let candidate_list = candidates.to_vec(alloc)?;
    let error = SyntaxError::UnexpectedTokenWithSuggestions { candidate_list };
    assert_message(rt, alloc, error, want)
}

#[test]
fn messages_of_suggestions(rt: HostRuntime) -> Result<(), Fail> {
    for (candidates, want) in [
        (&[][..], "Unexpected token. Did you mean ?"),
        (&["a"], "Unexpected token. Did you mean a?"),
        (&["a", "b"], "Unexpected token. Did you mean a or b?"),
        (
            &["a", "b", "c"],
            "Unexpected token. Did you mean a , bor c?",
        ),
        (
            &["a", "b", "c", "d"],
            "Unexpected token. Did you mean a , b , cor d?",
        ),
    ] {
        assert_suggestions(&rt, rt.alloc(), candidates, want)?;
    }
    Ok(())
}

fn unary_in_exp<'a>(alloc: Global) -> Result<SyntaxError<'a>, AllocError> {
    Ok(SyntaxError::UnaryInExp {
        left: String::from_str(alloc, "-1")?,
        left_span: span(0, 2),
    })
}

fn unexpected_brace<'a>(alloc: Global) -> Result<SyntaxError<'a>, AllocError> {
    Ok(SyntaxError::Unexpected {
        got: String::from_str(alloc, "}")?,
        expected: "a name",
    })
}

fn expected_semicolon<'a>(alloc: Global) -> Result<SyntaxError<'a>, AllocError> {
    let name = String::from_str(alloc, "x")?;
    Ok(SyntaxError::Expected(Box::new(alloc, Token::Semi)?, name))
}

fn labelled_hash<'a>(alloc: Global) -> Result<SyntaxError<'a>, AllocError> {
    let hash = Error::new(alloc, span(1, 2), SyntaxError::Hash)?;
    Ok(SyntaxError::WithLabel {
        inner: Box::new(alloc, hash)?,
        span: span(0, 1),
        note: "here",
    })
}

#[test]
fn messages_with_owned_texts(rt: HostRuntime) -> Result<(), Fail> {
    let alloc = rt.alloc();
    let unary = "'**' cannot be applied to unary/await expression.";
    assert_message(&rt, alloc, unary_in_exp(alloc)?, unary)?;
    let brace = "Unexpected token `}`. Expected a name";
    assert_message(&rt, alloc, unexpected_brace(alloc)?, brace)
}

#[test]
fn messages_with_owned_errors(rt: HostRuntime) -> Result<(), Fail> {
    let alloc = rt.alloc();
    assert_message(
        &rt,
        alloc,
        expected_semicolon(alloc)?,
        "Expected ';', got 'x'",
    )?;
    assert_message(&rt, alloc, labelled_hash(alloc)?, "Unexpected token '#'")
}

#[test]
fn messages_with_places(rt: HostRuntime) -> Result<(), Fail> {
    let alloc = rt.alloc();
    let semicolon = SyntaxError::ExpectedSemiForExprStmt { expr: span(0, 1) };
    assert_message(&rt, alloc, semicolon, "Expected ';', '}' or <eof>")?;
    let second = SyntaxError::MultipleDefault {
        previous: span(0, 7),
    };
    assert_message(
        &rt,
        alloc,
        second,
        "A switch block cannot have multiple defaults",
    )
}

// An error of the parser, and the words that it holds.
#[derive(Clone, Copy)]
enum Worded {
    InvalidIdentInStrict(&'static str),
    DuplicateLabel(&'static str),
    JSXExpectedClosingTag(&'static str),
    PrivateNameModifier(&'static str),
    ExportExpectFrom(&'static str),
    ImportBindingIsString(&'static str),
    DuplicatedRegExpFlags(char),
    TS1029(&'static str, &'static str),
    TS1030(&'static str),
    TS1089(&'static str),
    TS1243(&'static str, &'static str),
    TS1273(&'static str),
    TS1274(&'static str),
    TS1277(&'static str),
    TsNonNullAssertionNotAllowed(&'static str),
}

impl Worded {
    fn error(self) -> SyntaxError<'static> {
        match self {
            Worded::InvalidIdentInStrict(word) => {
                SyntaxError::InvalidIdentInStrict(Atom::from(word))
            }
            Worded::DuplicateLabel(word) => SyntaxError::DuplicateLabel(Atom::from(word)),
            Worded::JSXExpectedClosingTag(word) => SyntaxError::JSXExpectedClosingTag {
                tag: Atom::from(word),
            },
            Worded::PrivateNameModifier(word) => SyntaxError::PrivateNameModifier(Atom::from(word)),
            Worded::ExportExpectFrom(word) => SyntaxError::ExportExpectFrom(Atom::from(word)),
            Worded::ImportBindingIsString(word) => {
                SyntaxError::ImportBindingIsString(Atom::from(word))
            }
            Worded::DuplicatedRegExpFlags(c) => SyntaxError::DuplicatedRegExpFlags(c),
            Worded::TS1029(left, right) => SyntaxError::TS1029(Atom::from(left), Atom::from(right)),
            Worded::TS1030(word) => SyntaxError::TS1030(Atom::from(word)),
            Worded::TS1089(word) => SyntaxError::TS1089(Atom::from(word)),
            Worded::TS1243(left, right) => SyntaxError::TS1243(Atom::from(left), Atom::from(right)),
            Worded::TS1273(word) => SyntaxError::TS1273(Atom::from(word)),
            Worded::TS1274(word) => SyntaxError::TS1274(Atom::from(word)),
            Worded::TS1277(word) => SyntaxError::TS1277(Atom::from(word)),
            Worded::TsNonNullAssertionNotAllowed(word) => {
                SyntaxError::TsNonNullAssertionNotAllowed(Atom::from(word))
            }
        }
    }
}

const WITH_WORDS: &[(Worded, &str)] = &[
    (
        Worded::InvalidIdentInStrict("yield"),
        "`yield` cannot be used as an identifier in strict mode",
    ),
    (Worded::DuplicateLabel("a"), "Label a is already declared"),
    (
        Worded::JSXExpectedClosingTag("b"),
        "Expected corresponding JSX closing tag for <b>",
    ),
    (
        Worded::PrivateNameModifier("static"),
        "'static' modifier cannot be used with a private identifier",
    ),
    (
        Worded::ExportExpectFrom("a"),
        "`a` cannot be used without `from` clause",
    ),
    (
        Worded::ImportBindingIsString("a"),
        "A string literal cannot be used as an imported binding.\n- Did you mean `import { \"a\" as foo }`?",
    ),
    (
        Worded::DuplicatedRegExpFlags('g'),
        "Duplicated regular expression flag 'g'.",
    ),
    (
        Worded::TS1029("a", "b"),
        "'a' modifier must precede 'b' modifier.",
    ),
    (Worded::TS1030("a"), "'a' modifier already seen."),
    (
        Worded::TS1089("a"),
        "'a' modifier cannot appear on a constructor declaration",
    ),
    (
        Worded::TS1243("a", "b"),
        "'a' modifier cannot be used with 'b' modifier.",
    ),
    (
        Worded::TS1273("a"),
        "'a' modifier cannot appear on a type parameter",
    ),
    (
        Worded::TS1274("a"),
        "'a' modifier can only appear on a type parameter of a class, interface or type alias",
    ),
    (
        Worded::TS1277("a"),
        "'a' modifier can only appear on a type parameter of a function, method or class",
    ),
    (
        Worded::TsNonNullAssertionNotAllowed("a"),
        "Typescript non-null assertion operator is not allowed with 'a'",
    ),
];

#[test]
fn messages_with_words(rt: HostRuntime) -> Result<(), Fail> {
    for (worded, want) in WITH_WORDS {
        assert_message(&rt, rt.alloc(), worded.error(), want)?;
    }
    Ok(())
}
