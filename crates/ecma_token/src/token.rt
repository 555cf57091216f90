//! Tokens.
ghost use Rattle.std.specs.Prelude.{◌≡◌, IfOk, IsFalse, IsOk, IsTrue, Some};
ghost use Rattle.std.specs.Fmt.{WritesOnOk};
ghost use Rattle.std.specs.Option.{option_copied};
ghost use Rattle.ecma_token.specs.Kinds.{token_kind};
ghost use Rattle.ecma_token.specs.Messages.{literal_text, quotes_error, spelling, token_text};
ghost use Rattle.ecma_token.specs.View.{has_texts, is_sign, owns_nothing, spanned_view, texts_of, token_view};

use crate::error::{Error, copy_two};
use crate::message::{write_around, write_pair};
use ecma_span::{Atom, Span, Spanned};
use ecma_token_kind::{AssignOp, BinOpToken, TokenKind, Word};
use std::alloc::{AllocError, Global};
use std::fmt;

/// The radix in which a number is written.
#[derive(Debug, Clone, Copy, PartialEq, Eq, Hash)]
pub enum Radix {
    Binary,
    Octal,
    Decimal,
    Hex,
}

/// A token of the source.
#[cycle(token)]
#[derive(PartialEq, Drop)]
pub enum Token<'a> {
    /// An identifier name: a keyword, `null`, `true`, `false` or a name.
    Word(Word<'a>),
    /// `=>`
    Arrow,
    /// `#`
    Hash,
    /// `@`
    At,
    /// `.`
    Dot,
    /// `...`
    DotDotDot,
    /// `!`
    Bang,
    /// `(`
    LParen,
    /// `)`
    RParen,
    /// `[`
    LBracket,
    /// `]`
    RBracket,
    /// `{`
    LBrace,
    /// `}`
    RBrace,
    /// `;`
    Semi,
    /// `,`
    Comma,
    /// A back quote.
    BackQuote,
    /// The text between two marks of a template, and what it means, or why that is refused.
    Template {
        raw: Atom<'a>,
        cooked: Result<Atom<'a>, Error<'a>>,
    },
    /// `:`
    Colon,
    /// An operator between two operands.
    BinOp(BinOpToken),
    /// `=`, or an operator with it.
    AssignOp(AssignOp),
    /// `${`
    DollarLBrace,
    /// `?`
    QuestionMark,
    /// `++`
    PlusPlus,
    /// `--`
    MinusMinus,
    /// `~`
    Tilde,
    /// A string: what it means, and how it is written, quotes included.
    Str {
        value: Atom<'a>,
        raw: Atom<'a>,
    },
    /// A regular expression: its body and its flags.
    Regex(Atom<'a>, Atom<'a>),
    /// A number: how it is written, its radix, its digits without separators and prefix, and its value where it is
    /// a whole number below 2 to the 128th.
    Num {
        raw: Atom<'a>,
        radix: Radix,
        digits: Atom<'a>,
        whole: Option<u128>,
    },
    /// A big integer: how it is written, its radix, and its digits without separators, prefix and `n`.
    BigInt {
        raw: Atom<'a>,
        radix: Radix,
        digits: Atom<'a>,
    },
    /// A name in a JSX tag; the lexer never reads it.
    JSXName {
        name: Atom<'a>,
    },
    /// Text between JSX tags; the lexer never reads it.
    JSXText {
        value: Atom<'a>,
        raw: Atom<'a>,
    },
    /// `<` of a JSX tag; the lexer never reads it.
    JSXTagStart,
    /// `>` of a JSX tag; the lexer never reads it.
    JSXTagEnd,
    /// A line that begins with `#!` at the very start; its text is what follows these.
    Shebang(Atom<'a>),
    /// A text that is no token, and why.
    Error(Error<'a>),
}

impl<'a> Token<'a> {
    /// The kind of the token.
    pub fn kind(&self) -> TokenKind
        ensures { result ≡ token_kind self.now }
    {
        match self {
            Token::Word(word) => TokenKind::Word(word.kind()),
            Token::Arrow => TokenKind::Arrow,
            Token::Hash => TokenKind::Hash,
            Token::At => TokenKind::At,
            Token::Dot => TokenKind::Dot,
            Token::DotDotDot => TokenKind::DotDotDot,
            Token::Bang => TokenKind::Bang,
            Token::LParen => TokenKind::LParen,
            Token::RParen => TokenKind::RParen,
            Token::LBracket => TokenKind::LBracket,
            Token::RBracket => TokenKind::RBracket,
            Token::LBrace => TokenKind::LBrace,
            Token::RBrace => TokenKind::RBrace,
            Token::Semi => TokenKind::Semi,
            Token::Comma => TokenKind::Comma,
            Token::BackQuote => TokenKind::BackQuote,
            Token::Template { .. } => TokenKind::Template,
            Token::Colon => TokenKind::Colon,
            Token::BinOp(op) => TokenKind::BinOp(*op),
            Token::AssignOp(op) => TokenKind::AssignOp(*op),
            Token::DollarLBrace => TokenKind::DollarLBrace,
            Token::QuestionMark => TokenKind::QuestionMark,
            Token::PlusPlus => TokenKind::PlusPlus,
            Token::MinusMinus => TokenKind::MinusMinus,
            Token::Tilde => TokenKind::Tilde,
            Token::Str { .. } => TokenKind::Str,
            Token::Regex(_, _) => TokenKind::Regex,
            Token::Num { .. } => TokenKind::Num,
            Token::BigInt { .. } => TokenKind::BigInt,
            Token::JSXName { .. } => TokenKind::JSXName,
            Token::JSXText { .. } => TokenKind::JSXText,
            Token::JSXTagStart => TokenKind::JSXTagStart,
            Token::JSXTagEnd => TokenKind::JSXTagEnd,
            Token::Shebang(_) => TokenKind::Shebang,
            Token::Error(_) => TokenKind::Error,
        }
    }

    /// The same token, with its texts borrowed or owned as here. Only owned texts and errors allocate;
    /// a refused allocation changes nothing.
    #[cycle(copy)]
    pub fn copy(&self, alloc: Global) -> Result<Token<'a>, AllocError>
        ensures same { IfOk result (λ token. token_view token ≡ token_view self.now) }
        ensures free { IsTrue (owns_nothing (token_view self.now)) → IsOk result }
    {
        match self {
            Token::Template {
                raw,
                cooked: Err(error),
            } => Ok(Token::Template {
                raw: raw.copy(alloc)?,
                cooked: Err(error.copy(alloc)?),
            }),
            Token::Error(error) => Ok(Token::Error(error.copy(alloc)?)),
            Token::Word(_)
            | Token::Template { .. }
            | Token::Str { .. }
            | Token::Regex(_, _)
            | Token::Num { .. }
            | Token::BigInt { .. }
            | Token::JSXName { .. }
            | Token::JSXText { .. }
            | Token::Shebang(_) => self.copy_texts(alloc),
            _ => Ok(self.copy_sign()),
        }
    }

    /// The same token, where it holds texts and no error. It is apart from `copy` since each text that may be refused
    /// costs a proof for all that recurs beside it, and two texts' copies are asked for in one place.
    fn copy_texts(&self, alloc: Global) -> Result<Token<'a>, AllocError>
        requires { IsTrue (has_texts self.now) }
        ensures same { IfOk result (λ token. token_view token ≡ token_view self.now) }
        ensures free { IsTrue (owns_nothing (token_view self.now)) → IsOk result }
    {
        match self {
            Token::Word(word) => Ok(Token::Word(word.copy(alloc)?)),
            Token::JSXName { name } => Ok(Token::JSXName {
                name: name.copy(alloc)?,
            }),
            Token::Shebang(text) => Ok(Token::Shebang(text.copy(alloc)?)),
            Token::Template {
                raw: left,
                cooked: Ok(right),
            }
            | Token::Str {
                value: left,
                raw: right,
            }
            | Token::Regex(left, right)
            | Token::Num {
                raw: left,
                digits: right,
                ..
            }
            | Token::BigInt {
                raw: left,
                digits: right,
                ..
            }
            | Token::JSXText {
                value: left,
                raw: right,
            } => {
                let (left, right) = copy_two(left, right, alloc)?;
                Ok(self.with_texts(left, right))
            }
            _ => Err(AllocError),
        }
    }

    /// The same token with these two texts, where it holds two.
    fn with_texts(&self, left: Atom<'a>, right: Atom<'a>) -> Token<'a>
        requires { Some (left, right) ≡ texts_of self.now }
        ensures { token_view result ≡ token_view self.now }
    {
        match self {
            Token::Template { .. } => Token::Template {
                raw: left,
                cooked: Ok(right),
            },
            Token::Str { .. } => Token::Str {
                value: left,
                raw: right,
            },
            Token::Regex(_, _) => Token::Regex(left, right),
            Token::Num { radix, whole, .. } => Token::Num {
                raw: left,
                radix: *radix,
                digits: right,
                whole: *whole,
            },
            Token::BigInt { radix, .. } => Token::BigInt {
                raw: left,
                radix: *radix,
                digits: right,
            },
            // JSX text is the last kind of token that holds two texts.
            _ => Token::JSXText {
                value: left,
                raw: right,
            },
        }
    }

    /// The same token, where it holds neither a text nor an error.
    fn copy_sign(&self) -> Token<'a>
        requires { IsTrue (is_sign self.now) }
        ensures { token_view result ≡ token_view self.now }
    {
        match self {
            Token::BinOp(op) => Token::BinOp(*op),
            Token::AssignOp(op) => Token::AssignOp(*op),
            Token::Hash => Token::Hash,
            Token::At => Token::At,
            Token::Dot => Token::Dot,
            Token::DotDotDot => Token::DotDotDot,
            Token::Bang => Token::Bang,
            Token::LParen => Token::LParen,
            Token::RParen => Token::RParen,
            Token::LBracket => Token::LBracket,
            Token::RBracket => Token::RBracket,
            Token::LBrace => Token::LBrace,
            Token::RBrace => Token::RBrace,
            Token::Semi => Token::Semi,
            Token::Comma => Token::Comma,
            Token::BackQuote => Token::BackQuote,
            Token::Colon => Token::Colon,
            Token::DollarLBrace => Token::DollarLBrace,
            Token::QuestionMark => Token::QuestionMark,
            Token::PlusPlus => Token::PlusPlus,
            Token::MinusMinus => Token::MinusMinus,
            Token::Tilde => Token::Tilde,
            Token::JSXTagStart => Token::JSXTagStart,
            Token::JSXTagEnd => Token::JSXTagEnd,
            _ => Token::Arrow,
        }
    }

    // The debug text of a literal. It is apart from `fmt`, as the message of an error is.
    fn write_literal<W: fmt::Write>(&self, f: &mut fmt::Formatter<W>) -> fmt::Result
        requires { IsFalse (quotes_error self.now) }
        ensures { WritesOnOk W.write_str_gives f.old result (literal_text self.now) f.new }
    {
        match self {
            Token::Template { raw, .. } => write_around(f, "template token (", raw, ")"),
            Token::Str { value, raw } => write_pair(f, "string literal (", value, ", ", raw, ")"),
            Token::Regex(body, flags) => write_pair(f, "regexp literal (", body, ", ", flags, ")"),
            Token::Num { raw, .. } => write_around(f, "numeric literal (", raw, ")"),
            Token::BigInt { raw, digits, .. } => {
                write_pair(f, "bigint literal (", digits, ", ", raw, ")")
            }
            Token::JSXName { name } => write_around(f, "jsx name (", name, ")"),
            Token::JSXText { raw, .. } => write_around(f, "jsx text (", raw, ")"),
            _ => Ok(()),
        }
    }

    /// The debug text of a token that is no literal and no error.
    fn spelling(&self) -> Option<&str>
        ensures { option_copied result ≡ spelling self.now }
    {
        match self {
            Token::Word(word) => Some(word.as_str()),
            Token::BinOp(op) => Some(op.as_str()),
            Token::AssignOp(op) => Some(op.as_str()),
            Token::Arrow => Some("=>"),
            Token::Hash => Some("#"),
            Token::At => Some("@"),
            Token::Dot => Some("."),
            Token::DotDotDot => Some("..."),
            Token::Bang => Some("!"),
            Token::LParen => Some("("),
            Token::RParen => Some(")"),
            Token::LBracket => Some("["),
            Token::RBracket => Some("]"),
            Token::LBrace => Some("{"),
            Token::RBrace => Some("}"),
            Token::Semi => Some(";"),
            Token::Comma => Some(","),
            Token::BackQuote => Some("`"),
            Token::Colon => Some(":"),
            Token::DollarLBrace => Some("${"),
            Token::QuestionMark => Some("?"),
            Token::PlusPlus => Some("++"),
            Token::MinusMinus => Some("--"),
            Token::Tilde => Some("~"),
            Token::JSXTagStart => Some("< (jsx tag start)"),
            Token::JSXTagEnd => Some("> (jsx tag end)"),
            Token::Shebang(_) => Some("#!"),
            _ => None,
        }
    }
}

/// A word or a punctuator as it is written, a literal by its name and its texts, an error by its message.
impl<'a> fmt::Debug for Token<'a> {
    ghost use Rattle.std.specs.Prelude.{Some};

    ghost debug_output = { λ t. Some (token_text t) };

    #[cycle(show)]
    fn fmt<W: fmt::Write>(&self, f: &mut fmt::Formatter<W>) -> fmt::Result {
        if let Some(text) = self.spelling() {
            return f.write_str(text);
        }
        match self {
            Token::Error(error) => {
                f.write_str("<lexing error: ")?;
                fmt::Display::fmt(error, f)?;
                f.write_str(">")
            }
            _ => self.write_literal(f),
        }
    }
}

/// A token, where it is, and whether a line terminator comes before it.
#[derive(Debug, PartialEq, Drop)]
pub struct TokenAndSpan<'a> {
    pub token: Token<'a>,
    /// Whether the gap before the token holds a line terminator, or no token but a shebang came before.
    pub had_line_break: bool,
    pub span: Span,
}

impl<'a> TokenAndSpan<'a> {
    /// The same token at the same place. It allocates as `Token::copy` does; a refused allocation changes nothing.
    pub fn copy(&self, alloc: Global) -> Result<TokenAndSpan<'a>, AllocError>
        ensures same { IfOk result (λ t. spanned_view t ≡ spanned_view self.now) }
        ensures free { IsTrue (owns_nothing (spanned_view self.now).token) → IsOk result }
    {
        Ok(TokenAndSpan {
            token: self.token.copy(alloc)?,
            had_line_break: self.had_line_break,
            span: self.span,
        })
    }
}

impl<'a> Spanned for TokenAndSpan<'a> {
    ghost span = { λ t. t.span };

    fn span(&self) -> Span {
        self.span
    }
}
