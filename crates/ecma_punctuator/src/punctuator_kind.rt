//! Punctuators without the room that a token takes.
ghost use Rattle.std.specs.Prelude.{◌≡◌};
ghost use Rattle.ecma_punctuator.specs.PunctuatorKinds.{kind_token};
ghost use Rattle.ecma_token.specs.Kinds.{token_kind};

use ecma_syntax::{AssignOp, BinOpToken};
use ecma_token::{Token, TokenKind};

/// Which punctuator is at a place: what its token is, in two bytes. Our own, for speed.
#[derive(Debug, Clone, Copy, PartialEq, Eq)]
pub enum PunctuatorKind {
    Arrow,
    Hash,
    At,
    Dot,
    DotDotDot,
    Bang,
    LParen,
    RParen,
    LBracket,
    RBracket,
    LBrace,
    RBrace,
    Semi,
    Comma,
    BackQuote,
    Colon,
    BinOp(BinOpToken),
    AssignOp(AssignOp),
    QuestionMark,
    PlusPlus,
    MinusMinus,
    Tilde,
}

impl PunctuatorKind {
    /// The punctuator as a token.
    #[inline(always)]
    pub fn token<'a>(self) -> Token<'a>
        ensures { result ≡ kind_token self }
    {
        match self {
            PunctuatorKind::Arrow => Token::Arrow,
            PunctuatorKind::Hash => Token::Hash,
            PunctuatorKind::At => Token::At,
            PunctuatorKind::Dot => Token::Dot,
            PunctuatorKind::DotDotDot => Token::DotDotDot,
            PunctuatorKind::Bang => Token::Bang,
            PunctuatorKind::LParen => Token::LParen,
            PunctuatorKind::RParen => Token::RParen,
            PunctuatorKind::LBracket => Token::LBracket,
            PunctuatorKind::RBracket => Token::RBracket,
            PunctuatorKind::LBrace => Token::LBrace,
            PunctuatorKind::RBrace => Token::RBrace,
            PunctuatorKind::Semi => Token::Semi,
            PunctuatorKind::Comma => Token::Comma,
            PunctuatorKind::BackQuote => Token::BackQuote,
            PunctuatorKind::Colon => Token::Colon,
            PunctuatorKind::BinOp(operator) => Token::BinOp(operator),
            PunctuatorKind::AssignOp(operator) => Token::AssignOp(operator),
            PunctuatorKind::QuestionMark => Token::QuestionMark,
            PunctuatorKind::PlusPlus => Token::PlusPlus,
            PunctuatorKind::MinusMinus => Token::MinusMinus,
            PunctuatorKind::Tilde => Token::Tilde,
        }
    }

    /// The kind of the punctuator's token, without making the token. Our own, for speed.
    #[inline(always)]
    pub fn kind(self) -> TokenKind
        ensures { result ≡ token_kind (kind_token self) }
    {
        match self {
            PunctuatorKind::Arrow => TokenKind::Arrow,
            PunctuatorKind::Hash => TokenKind::Hash,
            PunctuatorKind::At => TokenKind::At,
            PunctuatorKind::Dot => TokenKind::Dot,
            PunctuatorKind::DotDotDot => TokenKind::DotDotDot,
            PunctuatorKind::Bang => TokenKind::Bang,
            PunctuatorKind::LParen => TokenKind::LParen,
            PunctuatorKind::RParen => TokenKind::RParen,
            PunctuatorKind::LBracket => TokenKind::LBracket,
            PunctuatorKind::RBracket => TokenKind::RBracket,
            PunctuatorKind::LBrace => TokenKind::LBrace,
            PunctuatorKind::RBrace => TokenKind::RBrace,
            PunctuatorKind::Semi => TokenKind::Semi,
            PunctuatorKind::Comma => TokenKind::Comma,
            PunctuatorKind::BackQuote => TokenKind::BackQuote,
            PunctuatorKind::Colon => TokenKind::Colon,
            PunctuatorKind::BinOp(operator) => TokenKind::BinOp(operator),
            PunctuatorKind::AssignOp(operator) => TokenKind::AssignOp(operator),
            PunctuatorKind::QuestionMark => TokenKind::QuestionMark,
            PunctuatorKind::PlusPlus => TokenKind::PlusPlus,
            PunctuatorKind::MinusMinus => TokenKind::MinusMinus,
            PunctuatorKind::Tilde => TokenKind::Tilde,
        }
    }
}
