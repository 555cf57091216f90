//! Kinds of tokens, and what may come beside them.
ghost use Rattle.std.specs.Prelude.{◌≡◌};
ghost use Rattle.ecma_token_kind.specs.Questions as ask;

use ecma_word::{AssignOp, BinOpToken, Keyword, WordKind};

/// The kind of a token: its variant, with the word or operator that it is.
#[derive(Debug, Clone, Copy, PartialEq, Eq, Hash)]
pub enum TokenKind {
    Word(WordKind),
    Arrow,
    Hash,
    At,
    Dot,
    DotDotDot,
    Bang,
    LParen,
    RParen,
    LBracket,
    RBracket,
    LBrace,
    RBrace,
    Semi,
    Comma,
    BackQuote,
    Template,
    Colon,
    BinOp(BinOpToken),
    AssignOp(AssignOp),
    DollarLBrace,
    QuestionMark,
    PlusPlus,
    MinusMinus,
    Tilde,
    Str,
    Regex,
    Num,
    BigInt,
    JSXName,
    JSXText,
    JSXTagStart,
    JSXTagEnd,
    Shebang,
    Error,
}

fn keyword_before_expr(keyword: Keyword) -> bool
    ensures { result ≡ ask.keyword_before_expr keyword }
{
    matches!(
        keyword,
        Keyword::Await
            | Keyword::Case
            | Keyword::Default_
            | Keyword::Do
            | Keyword::Else
            | Keyword::Return
            | Keyword::Throw
            | Keyword::New
            | Keyword::Extends
            | Keyword::Yield
            | Keyword::In
            | Keyword::InstanceOf
            | Keyword::TypeOf
            | Keyword::Void
            | Keyword::Delete
    )
}

fn keyword_starts_expr(keyword: Keyword) -> bool
    ensures { result ≡ ask.keyword_starts_expr keyword }
{
    matches!(
        keyword,
        Keyword::Await
            | Keyword::Function
            | Keyword::Throw
            | Keyword::New
            | Keyword::This
            | Keyword::Super
            | Keyword::Class
            | Keyword::Import
            | Keyword::Yield
            | Keyword::TypeOf
            | Keyword::Void
            | Keyword::Delete
    )
}

impl TokenKind {
    /// Whether an expression may follow a token of this kind.
    pub fn before_expr(self) -> bool
        ensures { result ≡ ask.before_expr self }
    {
        match self {
            TokenKind::Word(WordKind::Keyword(keyword)) => keyword_before_expr(keyword),
            TokenKind::BinOp(_) | TokenKind::AssignOp(_) => true,
            TokenKind::Arrow
            | TokenKind::DotDotDot
            | TokenKind::Bang
            | TokenKind::LParen
            | TokenKind::LBrace
            | TokenKind::LBracket
            | TokenKind::Semi
            | TokenKind::Comma
            | TokenKind::Colon
            | TokenKind::DollarLBrace
            | TokenKind::QuestionMark
            | TokenKind::PlusPlus
            | TokenKind::MinusMinus
            | TokenKind::Tilde
            | TokenKind::JSXText => true,
            _ => false,
        }
    }

    /// Whether an expression may begin with a token of this kind.
    pub fn starts_expr(self) -> bool
        ensures { result ≡ ask.starts_expr self }
    {
        match self {
            TokenKind::Word(WordKind::Keyword(keyword)) => keyword_starts_expr(keyword),
            TokenKind::Word(_) => true,
            TokenKind::BinOp(BinOpToken::Add | BinOpToken::Sub) => true,
            TokenKind::Bang
            | TokenKind::LParen
            | TokenKind::LBrace
            | TokenKind::LBracket
            | TokenKind::BackQuote
            | TokenKind::DollarLBrace
            | TokenKind::PlusPlus
            | TokenKind::MinusMinus
            | TokenKind::Tilde
            | TokenKind::Str
            | TokenKind::Regex
            | TokenKind::Num
            | TokenKind::BigInt
            | TokenKind::JSXTagStart => true,
            _ => false,
        }
    }

    /// Whether a declaration may go on with a token of this kind behind `let`. The answer is the same in strict mode
    /// code and outside of it: what is reserved there is the parser's question.
    pub fn follows_keyword_let(self, _strict: bool) -> bool
        ensures { result ≡ ask.follows_keyword_let self }
    {
        match self {
            TokenKind::Word(WordKind::Keyword(keyword)) => {
                matches!(keyword, Keyword::Let | Keyword::Yield | Keyword::Await)
            }
            TokenKind::Word(WordKind::Ident(_)) | TokenKind::LBrace | TokenKind::LBracket => true,
            _ => false,
        }
    }

    /// Whether a block comment behind a token of this kind may be that token's: our own choice. Where there is no token
    /// before it, it may not.
    pub fn can_have_trailing_comment(self) -> bool
        ensures { result ≡ ask.can_have_trailing_comment self }
    {
        matches!(
            self,
            TokenKind::Word(WordKind::Ident(_))
                | TokenKind::Semi
                | TokenKind::LBrace
                | TokenKind::RBrace
                | TokenKind::DollarLBrace
                | TokenKind::Num
                | TokenKind::BigInt
                | TokenKind::Str
                | TokenKind::Regex
        )
    }

    /// Whether a line comment behind a token of this kind may be that token's: our own choice. Where there is no token
    /// before it, it may too.
    pub fn can_have_trailing_line_comment(self) -> bool
        ensures { result ≡ ask.can_have_trailing_line_comment self }
    {
        !matches!(self, TokenKind::BinOp(_))
    }

    /// Whether the kind has no rule of its own where it is asked if the `{` behind it opens a block.
    pub fn is_other(self) -> bool
        ensures { result ≡ ask.is_other self }
    {
        !matches!(
            self,
            TokenKind::Word(WordKind::Keyword(_))
                | TokenKind::BinOp(_)
                | TokenKind::Template
                | TokenKind::Dot
                | TokenKind::Colon
                | TokenKind::LBrace
                | TokenKind::RParen
                | TokenKind::Semi
                | TokenKind::Arrow
                | TokenKind::JSXName
                | TokenKind::JSXText
                | TokenKind::JSXTagStart
                | TokenKind::JSXTagEnd
        )
    }
}
