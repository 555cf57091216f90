//! The messages that say what is wrong.
ghost use Rattle.std.specs.Prelude.{◌≡◌, ◌++◌, IfOk, IsFalse, IsOk, IsSome};
ghost use Rattle.std.specs.Cow.{cow_str_bytes};
ghost use Rattle.std.specs.Fmt.{WritesOnOk};
ghost use Rattle.std.specs.List.{flat_map, join_by};
ghost use Rattle.std.specs.Option.{option_copied};
ghost use Rattle.ecma_token.specs.Messages.{alternatives, digit_text, fixed_text, made_text, message, quotes_another};
ghost use Rattle.ecma_token.specs.MessageView.{view_message};
ghost use Rattle.ecma_token.specs.View.{error_kind, kind_view};

use crate::error::{Error, SyntaxError};
use crate::quoted::Quoted;
use crate::token::Radix;
use ecma_span::Atom;
use std::alloc::{AllocError, Global};
use std::borrow::CowStr;
use std::fmt;

impl Radix {
    /// What is said of a digit of this radix that is missing.
    fn digit_msg(self) -> &'static str
        ensures { result.now ≡ digit_text self }
    {
        match self {
            Radix::Binary => "Expected a binary digit",
            Radix::Octal => "Expected an octal digit",
            Radix::Decimal => "Expected a decimal digit",
            Radix::Hex => "Expected a hexadecimal digit",
        }
    }
}

impl<'a> SyntaxError<'a> {
    /// What is wrong, in words, as `Display` writes it. A message that holds nothing that the error holds is borrowed
    /// and does not allocate; any other is made, which can be refused.
    #[tactic(auto, using(crate::proofs::MessageLemmas::message_of_view))]
    pub fn msg(&self, alloc: Global) -> Result<CowStr<'static>, AllocError>
        ensures text { IfOk result (λ text. cow_str_bytes text ≡ message self.now) }
        ensures view { IfOk result (λ text. cow_str_bytes text ≡ view_message (kind_view self.now)) }
        ensures free { IsSome (fixed_text self.now) → IsOk result }
    {
        match self.fixed_msg() {
            Some(text) => Ok(CowStr::Borrowed(text)),
            None => Ok(CowStr::Owned(self.to_string(alloc)?)),
        }
    }

    /// The message, where it holds nothing that the error holds.
    fn fixed_msg(&self) -> Option<&'static str>
        ensures { option_copied result ≡ fixed_text self.now }
    {
        match self {
            SyntaxError::LegacyDecimal => Some(
                "Legacy decimal escape is not permitted in strict mode",
            ),
            SyntaxError::LegacyOctal => Some("Legacy octal escape is not permitted in strict mode"),
            SyntaxError::InvalidIdentChar => Some("Invalid character in identifier"),
            SyntaxError::UnterminatedBlockComment => Some("Unterminated block comment"),
            SyntaxError::UnterminatedStrLit => Some("Unterminated string constant"),
            SyntaxError::ExpectedUnicodeEscape => Some("Expected unicode escape"),
            SyntaxError::UnterminatedRegExp => Some("Unterminated regexp literal"),
            SyntaxError::UnterminatedTpl => Some("Unterminated template"),
            SyntaxError::IdentAfterNum => Some("Identifier cannot follow number"),
            SyntaxError::InvalidStrEscape => Some("Invalid string escape"),
            SyntaxError::InvalidUnicodeEscape => Some("Invalid unicode escape"),
            SyntaxError::NumLitTerminatedWithExp => Some("Expected +, - or decimal digit after e"),
            SyntaxError::LegacyCommentInModule => Some(
                "Legacy comments cannot be used in module code",
            ),
            SyntaxError::NumericSeparatorIsAllowedOnlyBetweenTwoDigits => {
                Some("A numeric separator is only allowed between two digits")
            }
            SyntaxError::TS1085 => {
                Some(
                    "Legacy octal literals are not available when targeting ECMAScript 5 and higher",
                )
            }
            SyntaxError::TS1185 => Some("Merge conflict marker encountered."),
            SyntaxError::Fixed(error) => Some(error.msg()),
            SyntaxError::ExpectedDigit { radix } => Some(radix.digit_msg()),
            SyntaxError::UnaryInExp { .. } => Some(
                "'**' cannot be applied to unary/await expression.",
            ),
            SyntaxError::ExpectedSemiForExprStmt { .. } => Some("Expected ';', '}' or <eof>"),
            SyntaxError::MultipleDefault { .. } => Some(
                "A switch block cannot have multiple defaults",
            ),
            SyntaxError::WithLabel { inner, .. } => inner.inner.fixed_msg(),
            _ => None,
        }
    }
}

// A text and what is round it.
pub(crate) fn write_around<W: fmt::Write>(
    f: &mut fmt::Formatter<W>,
    before: &str,
    text: &Atom,
    after: &str,
) -> fmt::Result
    ensures { WritesOnOk W.write_str_gives f.old result (before.now ++ text.now.bytes ++ after.now) f.new }
{
    f.write_str(before)?;
    f.write_str(text.as_str())?;
    f.write_str(after)
}

// Two texts and what is round them.
pub(crate) fn write_pair<W: fmt::Write>(
    f: &mut fmt::Formatter<W>,
    before: &str,
    left: &Atom,
    between: &str,
    right: &Atom,
    after: &str,
) -> fmt::Result
    ensures { WritesOnOk W.write_str_gives f.old result
        (before.now ++ left.now.bytes ++ between.now ++ right.now.bytes ++ after.now) f.new }
{
    f.write_str(before)?;
    f.write_str(left.as_str())?;
    f.write_str(between)?;
    f.write_str(right.as_str())?;
    f.write_str(after)
}

// Each piece, behind the separator.
fn write_behind<W: fmt::Write>(
    f: &mut fmt::Formatter<W>,
    separator: &str,
    pieces: &[&str],
) -> fmt::Result
    ensures { WritesOnOk W.write_str_gives f.old result (flat_map (λ x. separator.now ++ x.now) pieces.now) f.new }
{
    'pieces: for piece in pieces {
        f.write_str(separator)?;
        f.write_str(piece)?;
    }
    Ok(())
}

// The pieces, with the separator between each two.
fn write_joined<W: fmt::Write>(
    f: &mut fmt::Formatter<W>,
    separator: &str,
    pieces: &[&str],
) -> fmt::Result
    ensures { WritesOnOk W.write_str_gives f.old result (join_by (λ x. x.now) separator.now pieces.now) f.new }
{
    match pieces {
        [] => Ok(()),
        [first, others @ ..] => {
            f.write_str(first)?;
            write_behind(f, separator, others)
        }
    }
}

// What may be meant.
fn write_alternatives<W: fmt::Write>(f: &mut fmt::Formatter<W>, candidates: &[&str]) -> fmt::Result
    ensures { WritesOnOk W.write_str_gives f.old result (alternatives (λ x. x.now) candidates.now) f.new }
{
    if candidates.len() <= 2 {
        return write_joined(f, " or ", candidates);
    }
    let (others, last) = candidates.split_at(candidates.len() - 1);
    write_joined(f, " , ", others)?;
    f.write_str("or ")?;
    write_joined(f, "", last)
}

impl<'a> SyntaxError<'a> {
    // The message, where it holds texts or a character, and neither a token nor another error. It is apart from `fmt` since
    // each text that is written costs a proof for all that recurs beside it.
    fn write_quoting<W: fmt::Write>(&self, f: &mut fmt::Formatter<W>) -> fmt::Result
        requires { IsFalse (quotes_another self.now) }
        ensures { WritesOnOk W.write_str_gives f.old result (made_text self.now) f.new }
    {
        match self {
            SyntaxError::UnexpectedChar { c } => write!(f, "Unexpected character {}", Quoted(*c)),
            SyntaxError::BadCharacterEscapeSequence { expected } => {
                f.write_str("Bad character escape sequence, expected ")?;
                f.write_str(expected)
            }
            SyntaxError::DuplicatedRegExpFlags(c) => write!(
                f,
                "Duplicated regular expression flag '{c}'."
            ),
            SyntaxError::Unexpected { got, expected } => {
                f.write_str("Unexpected token `")?;
                f.write_str(got)?;
                f.write_str("`. Expected ")?;
                f.write_str(expected)
            }
            SyntaxError::UnexpectedTokenWithSuggestions { candidate_list } => {
                f.write_str("Unexpected token. Did you mean ")?;
                write_alternatives(f, candidate_list)?;
                f.write_str("?")
            }
            SyntaxError::TS1029(left, right) => write_pair(
                f,
                "'",
                left,
                "' modifier must precede '",
                right,
                "' modifier.",
            ),
            SyntaxError::TS1243(left, right) => write_pair(
                f,
                "'",
                left,
                "' modifier cannot be used with '",
                right,
                "' modifier.",
            ),
            SyntaxError::EscapeInReservedWord { word } => write_around(
                f,
                "Unexpected escape sequence in reserved word: ",
                word,
                "",
            ),
            SyntaxError::InvalidIdentInStrict(word) => write_around(
                f,
                "`",
                word,
                "` cannot be used as an identifier in strict mode",
            ),
            SyntaxError::DuplicateLabel(word) => write_around(
                f,
                "Label ",
                word,
                " is already declared",
            ),
            SyntaxError::JSXExpectedClosingTag { tag } => write_around(
                f,
                "Expected corresponding JSX closing tag for <",
                tag,
                ">",
            ),
            SyntaxError::PrivateNameModifier(word) => write_around(
                f,
                "'",
                word,
                "' modifier cannot be used with a private identifier",
            ),
            SyntaxError::ExportExpectFrom(word) => write_around(
                f,
                "`",
                word,
                "` cannot be used without `from` clause",
            ),
            SyntaxError::TS1030(word) => write_around(f, "'", word, "' modifier already seen."),
            SyntaxError::TS1089(word) => write_around(
                f,
                "'",
                word,
                "' modifier cannot appear on a constructor declaration",
            ),
            SyntaxError::TS1273(word) => write_around(
                f,
                "'",
                word,
                "' modifier cannot appear on a type parameter",
            ),
            SyntaxError::TS1274(word) => write_around(
                f,
                "'",
                word,
                "' modifier can only appear on a type parameter of a class, interface or type alias",
            ),
            SyntaxError::TS1277(word) => write_around(
                f,
                "'",
                word,
                "' modifier can only appear on a type parameter of a function, method or class",
            ),
            SyntaxError::TsNonNullAssertionNotAllowed(word) => write_around(
                f,
                "Typescript non-null assertion operator is not allowed with '",
                word,
                "'",
            ),
            SyntaxError::ImportBindingIsString(word) => write_around(
                f,
                "A string literal cannot be used as an imported binding.\n- Did you mean `import { \"",
                word,
                "\" as foo }`?",
            ),
            _ => Ok(()),
        }
    }
}

/// The message.
impl<'a> fmt::Display for SyntaxError<'a> {
    ghost use Rattle.std.specs.Prelude.{Some};

    ghost output = { λ e. Some (message e) };

    #[cycle(show)]
    fn fmt<W: fmt::Write>(&self, f: &mut fmt::Formatter<W>) -> fmt::Result {
        if let Some(text) = self.fixed_msg() {
            return f.write_str(text);
        }
        match self {
            SyntaxError::Expected(token, got) => {
                f.write_str("Expected '")?;
                fmt::Debug::fmt(&**token, f)?;
                f.write_str("', got '")?;
                f.write_str(got)?;
                f.write_str("'")
            }
            SyntaxError::WithLabel { inner, .. } => (**inner).fmt(f),
            _ => self.write_quoting(f),
        }
    }
}

/// The message of what is wrong.
impl<'a> fmt::Display for Error<'a> {
    ghost use Rattle.std.specs.Prelude.{Some};

    ghost output = { λ e. Some (message (error_kind e)) };

    #[cycle(show)]
    fn fmt<W: fmt::Write>(&self, f: &mut fmt::Formatter<W>) -> fmt::Result {
        (*self.inner).fmt(f)
    }
}
