//! What a text can have wrong.
ghost use Rattle.std.specs.Prelude.{◌≡◌, ◌&&◌, IfOk, IsOk, IsTrue, Some, string_bytes};
ghost use Rattle.ecma_token.specs.View.{IsErrorAt, can_own_nothing, error_kind, error_span, error_view, expected, holds_owned, holds_words, kind_owns_nothing, kind_view, token_view, with_label, word_of};

use crate::token::{Radix, Token};
use ecma_fixed::FixedError;
use ecma_span::{Atom, Span, Spanned};
use std::alloc::{AllocError, Global};

/// An error and where it is.
#[cycle(token)]
#[derive(Debug, PartialEq)]
pub struct Error<'a> {
    pub(crate) inner: Box<SyntaxError<'a>>,
    span: Span,
}

/// By hand, so that a function that drops tokens proves one call: of a derived `drop` each such function proves the whole cycle
/// of tokens and errors anew. Inlined, it costs a read what a derived one does.
impl<'a> Drop for Error<'a> {
    #[inline(always)]
    #[cycle(drop_error)]
    fn drop(self) {
        let Error { inner, span: _ } = self;
        drop_inner(inner);
    }
}

/// Apart, so that code that drops tokens is short.
#[inline(never)]
#[cycle(drop_error)]
fn drop_inner(inner: Box<SyntaxError>) {
    drop(inner);
}

/// What is wrong. The variants up to `TS1185` are those that the lexer raises.
#[cycle(token)]
#[derive(Debug, PartialEq, Drop)]
pub enum SyntaxError<'a> {
    /// A decimal that begins with 0, in strict mode code (ECMA-262, 12.9.3).
    LegacyDecimal,
    /// A legacy octal in strict mode code (ECMA-262, 12.9.3, 12.9.4), or as an escape in a template (12.9.6).
    LegacyOctal,
    /// An escape in a name, of what cannot be there (ECMA-262, 12.7).
    InvalidIdentChar,
    /// A number that lacks its digits, of this radix.
    ExpectedDigit {
        radix: Radix,
    },
    /// A block comment that nothing closes (ECMA-262, 12.4).
    UnterminatedBlockComment,
    /// A string that nothing closes on its line (ECMA-262, 12.9.4).
    UnterminatedStrLit,
    /// A backslash in a name, with no `u` behind it (ECMA-262, 12.7).
    ExpectedUnicodeEscape,
    /// A reserved word that is written with an escape.
    EscapeInReservedWord {
        word: Atom<'a>,
    },
    /// A regular expression that nothing closes on its line (ECMA-262, 12.9.5).
    UnterminatedRegExp,
    /// A template that nothing closes (ECMA-262, 12.9.6).
    UnterminatedTpl,
    /// A name right behind a number (ECMA-262, 12.9.3).
    IdentAfterNum,
    /// A character that begins no token.
    UnexpectedChar {
        c: char,
    },
    /// A backslash in a string or template that ends the text (ECMA-262, 12.9.4).
    InvalidStrEscape,
    /// An escape whose brace nothing closes (ECMA-262, 12.9.4).
    InvalidUnicodeEscape,
    /// An escape of the wrong form.
    BadCharacterEscapeSequence {
        expected: &'static str,
    },
    /// A number whose exponent ends the text right behind its `e` (ECMA-262, 12.9.3).
    NumLitTerminatedWithExp,
    /// An HTML-like comment in module code (ECMA-262, B.1.1).
    LegacyCommentInModule,
    /// A `_` in a number with no digit before it, or none right behind it (ECMA-262, 12.9.3).
    NumericSeparatorIsAllowedOnlyBetweenTwoDigits,
    /// A legacy octal number in TypeScript, for the fifth edition or a later one.
    TS1085,
    /// A conflict marker of a merge.
    TS1185,
    /// One of the parser's errors that hold nothing.
    Fixed(FixedError),
    /// A name that is reserved in strict mode code.
    InvalidIdentInStrict(Atom<'a>),
    /// A unary expression as the base of `**`: its text, and where it is.
    UnaryInExp {
        left: String,
        left_span: Span,
    },
    /// A token that does not fit: how it is written, and what was expected.
    Unexpected {
        got: String,
        expected: &'static str,
    },
    /// A token that does not fit, and what may be meant.
    UnexpectedTokenWithSuggestions {
        candidate_list: Vec<&'static str>,
    },
    /// The token that was expected, and how the one in its place is written.
    Expected(Box<Token<'a>>, String),
    /// No semicolon behind this expression.
    ExpectedSemiForExprStmt {
        expr: Span,
    },
    /// A second `default`; the first is here.
    MultipleDefault {
        previous: Span,
    },
    DuplicateLabel(Atom<'a>),
    /// The name of the tag that lacks its closing tag.
    JSXExpectedClosingTag {
        tag: Atom<'a>,
    },
    PrivateNameModifier(Atom<'a>),
    ExportExpectFrom(Atom<'a>),
    ImportBindingIsString(Atom<'a>),
    DuplicatedRegExpFlags(char),
    TS1029(Atom<'a>, Atom<'a>),
    TS1030(Atom<'a>),
    TS1089(Atom<'a>),
    TS1243(Atom<'a>, Atom<'a>),
    TS1273(Atom<'a>),
    TS1274(Atom<'a>),
    TS1277(Atom<'a>),
    TsNonNullAssertionNotAllowed(Atom<'a>),
    /// An error that is reported at another place too.
    WithLabel {
        inner: Box<Error<'a>>,
        span: Span,
        note: &'static str,
    },
}

fn boxed<'a>(alloc: Global, kind: SyntaxError<'a>) -> Result<Box<SyntaxError<'a>>, AllocError>
    ensures { IfOk result (λ inner. inner.value ≡ kind.entry) }
{
    Ok(Box::new(alloc, kind)?)
}

/// Two texts, as they are, or neither.
pub(crate) fn copy_two<'a>(
    left: &Atom<'a>,
    right: &Atom<'a>,
    alloc: Global,
) -> Result<(Atom<'a>, Atom<'a>), AllocError>
    ensures same { IfOk result (λ both. both ≡ (left.now, right.now)) }
    ensures free { IsTrue (left.now.is_borrowed && right.now.is_borrowed) → IsOk result }
{
    let left = left.copy(alloc)?;
    let right = right.copy(alloc)?;
    Ok((left, right))
}

fn at_span<'a>(inner: Box<SyntaxError<'a>>, span: Span) -> Error<'a>
    ensures { IsErrorAt result inner.entry.value span }
{
    Error { inner, span }
}

impl<'a> Error<'a> {
    /// The error of this kind over `span`. It allocates for the kind.
    pub fn new(alloc: Global, span: Span, kind: SyntaxError<'a>) -> Result<Error<'a>, AllocError>
        ensures { IfOk result (λ e. IsErrorAt e kind.entry span) }
    {
        match boxed(alloc, kind) {
            Ok(inner) => Ok(at_span(inner, span)),
            Err(refused) => Err(refused),
        }
    }

    /// What is wrong.
    pub fn kind(&self) -> &SyntaxError<'a>
        ensures { result.now ≡ error_kind self.now }
    {
        &self.inner
    }

    /// What is wrong, and no longer where.
    pub fn into_kind(self) -> SyntaxError<'a>
        ensures { result ≡ error_kind self.entry }
    {
        let Error { inner, span: _ } = self;
        Box::into_inner(inner)
    }

    /// The same error at the same place. It allocates for the kind; a refused allocation changes nothing.
    #[cycle(copy)]
    pub fn copy(&self, alloc: Global) -> Result<Error<'a>, AllocError>
        ensures { IfOk result (λ e. error_view e ≡ error_view self.now) }
    {
        let kind = self.inner.copy(alloc)?;
        Error::new(alloc, self.span, kind)
    }
}

impl<'a> Spanned for Error<'a> {
    ghost span = { λ e. error_span e };

    fn span(&self) -> Span {
        self.span
    }
}

// The next two make the variants that hold a token and an error. They are apart from `copy` since they recur into neither:
// each box that is made there costs a proof for all that recurs beside it.

/// This token was expected in the place of a copy of the text.
fn expected_kind<'a>(
    alloc: Global,
    token: Token<'a>,
    got: &String,
) -> Result<SyntaxError<'a>, AllocError>
    ensures { IfOk result (λ kind. kind_view kind ≡ expected (token_view token.entry) (string_bytes got.now)) }
{
    let token = Box::new(alloc, token)?;
    Ok(SyntaxError::Expected(token, got.clone()?))
}

/// This error is reported at `span` too.
fn labelled_kind<'a>(
    alloc: Global,
    inner: Error<'a>,
    span: Span,
    note: &'static str,
) -> Result<SyntaxError<'a>, AllocError>
    ensures { IfOk result (λ kind. kind_view kind ≡ with_label (kind_view (error_kind inner.entry)) (error_span inner.entry) span note.now) }
{
    Ok(SyntaxError::WithLabel {
        inner: Box::new(alloc, inner)?,
        span,
        note,
    })
}

impl<'a> SyntaxError<'a> {
    /// The same, with its texts borrowed or owned as here. Only owned texts, lists, tokens and errors
    /// allocate; a refused allocation changes nothing.
    #[cycle(copy)]
    pub fn copy(&self, alloc: Global) -> Result<SyntaxError<'a>, AllocError>
        ensures same { IfOk result (λ kind. kind_view kind ≡ kind_view self.now) }
        ensures free { IsTrue (kind_owns_nothing self.now) → IsOk result }
    {
        match self {
            SyntaxError::UnaryInExp { .. }
            | SyntaxError::Unexpected { .. }
            | SyntaxError::UnexpectedTokenWithSuggestions { .. } => self.copy_owned(),
            SyntaxError::Expected(token, got) => expected_kind(alloc, token.copy(alloc)?, got),
            SyntaxError::WithLabel { inner, span, note } => {
                labelled_kind(alloc, inner.copy(alloc)?, *span, note)
            }
            SyntaxError::EscapeInReservedWord { .. }
            | SyntaxError::JSXExpectedClosingTag { .. }
            | SyntaxError::TS1029(_, _)
            | SyntaxError::TS1243(_, _)
            | SyntaxError::InvalidIdentInStrict(_)
            | SyntaxError::DuplicateLabel(_)
            | SyntaxError::PrivateNameModifier(_)
            | SyntaxError::ExportExpectFrom(_)
            | SyntaxError::ImportBindingIsString(_)
            | SyntaxError::TS1030(_)
            | SyntaxError::TS1089(_)
            | SyntaxError::TS1273(_)
            | SyntaxError::TS1274(_)
            | SyntaxError::TS1277(_)
            | SyntaxError::TsNonNullAssertionNotAllowed(_) => self.copy_words(alloc),
            _ => Ok(self.copy_unowned()),
        }
    }

    /// The same, where it holds a text, or a list of texts, that is always owned. It is apart from `copy` since each text that
    /// may be refused costs a proof for all that recurs beside it.
    fn copy_owned(&self) -> Result<SyntaxError<'a>, AllocError>
        requires { IsTrue (holds_owned self.now) }
        ensures { IfOk result (λ kind. kind_view kind ≡ kind_view self.now) }
    {
        match self {
            SyntaxError::UnaryInExp { left, left_span } => Ok(SyntaxError::UnaryInExp {
                left: left.clone()?,
                left_span: *left_span,
            }),
            SyntaxError::Unexpected { got, expected } => Ok(SyntaxError::Unexpected {
                got: got.clone()?,
                expected,
            }),
            SyntaxError::UnexpectedTokenWithSuggestions { candidate_list } => Ok(
                SyntaxError::UnexpectedTokenWithSuggestions {
                    candidate_list: candidate_list.clone()?,
                },
            ),
            _ => Err(AllocError),
        }
    }

    /// The same, where it holds words. It is apart from `copy` too, and one word's copy is asked for in one place.
    fn copy_words(&self, alloc: Global) -> Result<SyntaxError<'a>, AllocError>
        requires { IsTrue (holds_words self.now) }
        ensures same { IfOk result (λ kind. kind_view kind ≡ kind_view self.now) }
        ensures free { IsTrue (kind_owns_nothing self.now) → IsOk result }
    {
        match self {
            SyntaxError::TS1029(left, right) => {
                let (left, right) = copy_two(left, right, alloc)?;
                Ok(SyntaxError::TS1029(left, right))
            }
            SyntaxError::TS1243(left, right) => {
                let (left, right) = copy_two(left, right, alloc)?;
                Ok(SyntaxError::TS1243(left, right))
            }
            SyntaxError::EscapeInReservedWord { word }
            | SyntaxError::JSXExpectedClosingTag { tag: word }
            | SyntaxError::InvalidIdentInStrict(word)
            | SyntaxError::DuplicateLabel(word)
            | SyntaxError::PrivateNameModifier(word)
            | SyntaxError::ExportExpectFrom(word)
            | SyntaxError::ImportBindingIsString(word)
            | SyntaxError::TS1030(word)
            | SyntaxError::TS1089(word)
            | SyntaxError::TS1273(word)
            | SyntaxError::TS1274(word)
            | SyntaxError::TS1277(word)
            | SyntaxError::TsNonNullAssertionNotAllowed(word) => {
                let word = word.copy(alloc)?;
                Ok(self.with_word(word))
            }
            _ => Err(AllocError),
        }
    }

    /// The same kind with this word.
    fn with_word(&self, word: Atom<'a>) -> SyntaxError<'a>
        requires { Some word ≡ word_of self.now }
        ensures { kind_view result ≡ kind_view self.now }
    {
        match self {
            SyntaxError::EscapeInReservedWord { .. } => SyntaxError::EscapeInReservedWord { word },
            SyntaxError::JSXExpectedClosingTag { .. } => SyntaxError::JSXExpectedClosingTag {
                tag: word,
            },
            SyntaxError::InvalidIdentInStrict(_) => SyntaxError::InvalidIdentInStrict(word),
            SyntaxError::DuplicateLabel(_) => SyntaxError::DuplicateLabel(word),
            SyntaxError::PrivateNameModifier(_) => SyntaxError::PrivateNameModifier(word),
            SyntaxError::ExportExpectFrom(_) => SyntaxError::ExportExpectFrom(word),
            SyntaxError::ImportBindingIsString(_) => SyntaxError::ImportBindingIsString(word),
            SyntaxError::TS1030(_) => SyntaxError::TS1030(word),
            SyntaxError::TS1089(_) => SyntaxError::TS1089(word),
            SyntaxError::TS1273(_) => SyntaxError::TS1273(word),
            SyntaxError::TS1274(_) => SyntaxError::TS1274(word),
            SyntaxError::TS1277(_) => SyntaxError::TS1277(word),
            _ => SyntaxError::TsNonNullAssertionNotAllowed(word),
        }
    }

    /// The same, where it owns nothing.
    fn copy_unowned(&self) -> SyntaxError<'a>
        requires { IsTrue (can_own_nothing self.now) }
        ensures { kind_view result ≡ kind_view self.now }
    {
        match self {
            SyntaxError::Fixed(error) => SyntaxError::Fixed(*error),
            SyntaxError::ExpectedDigit { radix } => SyntaxError::ExpectedDigit { radix: *radix },
            SyntaxError::UnexpectedChar { c } => SyntaxError::UnexpectedChar { c: *c },
            SyntaxError::BadCharacterEscapeSequence { expected } => {
                SyntaxError::BadCharacterEscapeSequence { expected }
            }
            SyntaxError::ExpectedSemiForExprStmt { expr } => {
                SyntaxError::ExpectedSemiForExprStmt { expr: *expr }
            }
            SyntaxError::MultipleDefault { previous } => SyntaxError::MultipleDefault {
                previous: *previous,
            },
            SyntaxError::DuplicatedRegExpFlags(c) => SyntaxError::DuplicatedRegExpFlags(*c),
            SyntaxError::LegacyOctal => SyntaxError::LegacyOctal,
            SyntaxError::InvalidIdentChar => SyntaxError::InvalidIdentChar,
            SyntaxError::UnterminatedBlockComment => SyntaxError::UnterminatedBlockComment,
            SyntaxError::UnterminatedStrLit => SyntaxError::UnterminatedStrLit,
            SyntaxError::ExpectedUnicodeEscape => SyntaxError::ExpectedUnicodeEscape,
            SyntaxError::UnterminatedRegExp => SyntaxError::UnterminatedRegExp,
            SyntaxError::UnterminatedTpl => SyntaxError::UnterminatedTpl,
            SyntaxError::IdentAfterNum => SyntaxError::IdentAfterNum,
            SyntaxError::InvalidStrEscape => SyntaxError::InvalidStrEscape,
            SyntaxError::InvalidUnicodeEscape => SyntaxError::InvalidUnicodeEscape,
            SyntaxError::NumLitTerminatedWithExp => SyntaxError::NumLitTerminatedWithExp,
            SyntaxError::LegacyCommentInModule => SyntaxError::LegacyCommentInModule,
            SyntaxError::NumericSeparatorIsAllowedOnlyBetweenTwoDigits =>
                SyntaxError::NumericSeparatorIsAllowedOnlyBetweenTwoDigits,
            SyntaxError::TS1085 => SyntaxError::TS1085,
            SyntaxError::TS1185 => SyntaxError::TS1185,
            _ => SyntaxError::LegacyDecimal,
        }
    }
}
