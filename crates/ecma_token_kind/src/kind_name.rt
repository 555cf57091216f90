//! The names of kinds of tokens.
ghost use Rattle.std.specs.Prelude.{◌≡◌};
ghost use Rattle.ecma_token_kind.specs.KindNames as names;

use crate::kind::TokenKind;
use ecma_word::WordKind;
use std::fmt;

fn word_name(kind: WordKind) -> &'static str
    ensures { result.now ≡ names.word_name kind }
{
    match kind {
        WordKind::Keyword(_) => "Keyword",
        WordKind::Null => "Null",
        WordKind::True => "True",
        WordKind::False => "False",
        WordKind::Ident(_) => "Ident",
    }
}

impl TokenKind {
    /// The name of the kind: that of its variant in upstream's `Token`, of a word that of its kind.
    pub fn name(self) -> &'static str
        ensures { result.now ≡ names.kind_name self }
    {
        match self {
            TokenKind::Word(word) => word_name(word),
            TokenKind::Arrow => "Arrow",
            TokenKind::Hash => "Hash",
            TokenKind::At => "At",
            TokenKind::Dot => "Dot",
            TokenKind::DotDotDot => "DotDotDot",
            TokenKind::Bang => "Bang",
            TokenKind::LParen => "LParen",
            TokenKind::RParen => "RParen",
            TokenKind::LBracket => "LBracket",
            TokenKind::RBracket => "RBracket",
            TokenKind::LBrace => "LBrace",
            TokenKind::RBrace => "RBrace",
            TokenKind::Semi => "Semi",
            TokenKind::Comma => "Comma",
            TokenKind::BackQuote => "BackQuote",
            TokenKind::Template => "Template",
            TokenKind::Colon => "Colon",
            TokenKind::BinOp(_) => "BinOp",
            TokenKind::AssignOp(_) => "AssignOp",
            TokenKind::DollarLBrace => "DollarLBrace",
            TokenKind::QuestionMark => "QuestionMark",
            TokenKind::PlusPlus => "PlusPlus",
            TokenKind::MinusMinus => "MinusMinus",
            TokenKind::Tilde => "Tilde",
            TokenKind::Str => "Str",
            TokenKind::Regex => "Regex",
            TokenKind::Num => "Num",
            TokenKind::BigInt => "BigInt",
            TokenKind::JSXName => "JSXName",
            TokenKind::JSXText => "JSXText",
            TokenKind::JSXTagStart => "JSXTagStart",
            TokenKind::JSXTagEnd => "JSXTagEnd",
            TokenKind::Shebang => "Shebang",
            TokenKind::Error => "Error",
        }
    }
}

impl fmt::Display for TokenKind {
    ghost use Rattle.std.specs.Prelude.{Some};

    ghost output = { λ kind. Some (names.kind_name kind) };

    fn fmt<W: fmt::Write>(&self, f: &mut fmt::Formatter<W>) -> fmt::Result {
        f.write_str(self.name())
    }
}
