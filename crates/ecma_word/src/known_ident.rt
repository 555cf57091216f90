//! Names that mean something to a parser in some places.
ghost use Rattle.std.specs.Prelude.{◌≡◌, Some, None, MatchResult};
ghost use Rattle.ecma_span.specs.Atom.{borrowed_atom};
ghost use Rattle.ecma_word.specs.KnownIdent.{known_text, known_of};

use crate::short_words;
use ecma_span::Atom;
use std::fmt;
use std::str::FromStr;

/// A name that means something to a parser in some places. The list and its order are those of the ported crate.
#[derive(Debug, Clone, Copy, PartialEq, Eq, PartialOrd, Ord, Hash)]
pub enum KnownIdent {
    Abstract,
    As,
    Async,
    From,
    Of,
    Type_,
    Global,
    Static,
    Using,
    Readonly,
    Unique,
    Keyof,
    Declare,
    Enum,
    Is,
    Infer,
    Symbol,
    Undefined,
    Interface,
    Implements,
    Asserts,
    Require,
    Get,
    Set,
    Any,
    Intrinsic,
    Unknown,
    String,
    Object,
    Number,
    Bigint,
    Boolean,
    Never,
    Assert,
    Namespace,
    Accessor,
    Meta,
    Target,
    Satisfies,
    Package,
    Protected,
    Private,
    Public,
}

impl KnownIdent {
    /// The name as it is written.
    pub fn as_str(&self) -> &'static str
        ensures { result.now ≡ known_text self.now }
    {
        match self {
            KnownIdent::Abstract => "abstract",
            KnownIdent::As => "as",
            KnownIdent::Async => "async",
            KnownIdent::From => "from",
            KnownIdent::Of => "of",
            KnownIdent::Type_ => "type",
            KnownIdent::Global => "global",
            KnownIdent::Static => "static",
            KnownIdent::Using => "using",
            KnownIdent::Readonly => "readonly",
            KnownIdent::Unique => "unique",
            KnownIdent::Keyof => "keyof",
            KnownIdent::Declare => "declare",
            KnownIdent::Enum => "enum",
            KnownIdent::Is => "is",
            KnownIdent::Infer => "infer",
            KnownIdent::Symbol => "symbol",
            KnownIdent::Undefined => "undefined",
            KnownIdent::Interface => "interface",
            KnownIdent::Implements => "implements",
            KnownIdent::Asserts => "asserts",
            KnownIdent::Require => "require",
            KnownIdent::Get => "get",
            KnownIdent::Set => "set",
            KnownIdent::Any => "any",
            KnownIdent::Intrinsic => "intrinsic",
            KnownIdent::Unknown => "unknown",
            KnownIdent::String => "string",
            KnownIdent::Object => "object",
            KnownIdent::Number => "number",
            KnownIdent::Bigint => "bigint",
            KnownIdent::Boolean => "boolean",
            KnownIdent::Never => "never",
            KnownIdent::Assert => "assert",
            KnownIdent::Namespace => "namespace",
            KnownIdent::Accessor => "accessor",
            KnownIdent::Meta => "meta",
            KnownIdent::Target => "target",
            KnownIdent::Satisfies => "satisfies",
            KnownIdent::Package => "package",
            KnownIdent::Protected => "protected",
            KnownIdent::Private => "private",
            KnownIdent::Public => "public",
        }
    }
}

/// The known name with this text, or `Err(())` where no known name has it.
impl FromStr for KnownIdent {
    type Err = ();

    ghost from_str_gives = { λ text r. MatchResult r (λ k. known_of text ≡ Some k) (λ _. known_of text ≡ None) };

    fn from_str(text: &str) -> Result<KnownIdent, ()> {
        short_words::kind_of(text).known().ok_or(())
    }
}

/// The name as it is written.
impl fmt::Display for KnownIdent {
    ghost output = { λ k. Some (known_text k) };

    fn fmt<W: fmt::Write>(&self, f: &mut fmt::Formatter<W>) -> fmt::Result {
        f.write_str(self.as_str())
    }
}

/// The name as it is written.
impl From<KnownIdent> for &'static str {
    ghost from_gives = { λ k text. text.now ≡ known_text k };

    fn from(known: KnownIdent) -> &'static str {
        known.as_str()
    }
}

/// The name as it is written, borrowed.
impl<'a> From<KnownIdent> for Atom<'a> {
    ghost from_gives = { λ known atom. atom ≡ borrowed_atom (known_text known) };

    fn from(value: KnownIdent) -> Atom<'a> {
        Atom::from(value.as_str())
    }
}
