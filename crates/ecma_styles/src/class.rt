//! What a token is to a reader, as a stylesheet names it.
ghost use Rattle.std.specs.Prelude.{◌≡◌};
ghost use Rattle.ecma_styles.specs.Styles as style;

use crate::beside::names_property;
use ecma_syntax::WordKind;
use ecma_token::TokenKind;

/// What a part of a text is, as a stylesheet names it.
#[derive(Clone, Copy, Debug, PartialEq, Eq)]
pub enum Class {
    Keyword,
    /// `null`, `true` or `false`; `undefined` where it is read.
    Literal,
    Name,
    /// A word behind `.` or `#`, or a key.
    Property,
    /// A function where it is called or declared.
    Function,
    /// A class, an interface or an enumeration where it is declared, extended or made.
    ClassName,
    TypeName,
    Decorator,
    /// `import.meta`, `new.target`.
    Meta,
    /// `this` or `super`.
    BuiltIn,
    Text,
    /// The text of a template, and its back quotes.
    Template,
    Number,
    Expression,
    /// A comment, or a shebang.
    Comment,
    /// A token that is an error, or in which an error lies.
    Wrong,
}

impl Class {
    /// The name of the class.
    pub fn name(self) -> &'static str
        ensures { result.now ≡ style.class_name self }
    {
        match self {
            Class::Keyword => "keyword",
            Class::Literal => "literal",
            Class::Name => "name",
            Class::Property => "property",
            Class::Function => "function",
            Class::ClassName => "class",
            Class::TypeName => "type",
            Class::Decorator => "decorator",
            Class::Meta => "meta",
            Class::BuiltIn => "builtin",
            Class::Text => "string",
            Class::Template => "template",
            Class::Number => "number",
            Class::Expression => "regexp",
            Class::Comment => "comment",
            Class::Wrong => "error",
        }
    }

    fn of_word(kind: WordKind) -> Class
        ensures { result ≡ style.word_class kind }
    {
        match kind {
            WordKind::Keyword(_) => Class::Keyword,
            WordKind::Null | WordKind::True | WordKind::False => Class::Literal,
            WordKind::Ident(_) => Class::Name,
        }
    }

    /// The plain class of a token of this kind, behind one of that kind or none, whatever else stands beside it. Punctuation
    /// has none.
    pub fn of(kind: TokenKind, previous: Option<TokenKind>) -> Option<Class>
        ensures { result ≡ style.class_of kind previous }
    {
        match kind {
            TokenKind::Word(word) => {
                if names_property(previous) {
                    Some(Class::Property)
                } else {
                    Some(Class::of_word(word))
                }
            }
            TokenKind::Str => Some(Class::Text),
            TokenKind::Template | TokenKind::BackQuote => Some(Class::Template),
            TokenKind::Num | TokenKind::BigInt => Some(Class::Number),
            TokenKind::Regex => Some(Class::Expression),
            TokenKind::Shebang => Some(Class::Comment),
            TokenKind::Error => Some(Class::Wrong),
            _ => None,
        }
    }
}
