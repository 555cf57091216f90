//! Words as tokens hold them.
ghost use Rattle.std.specs.Prelude.{◌≡◌, IfOk, IsOk, IsTrue, Some};
ghost use Rattle.ecma_word.specs.Word.{ident_of, word_of, word_of_kind, known_of_kind, ident_text, word_text, ident_kind_of, word_kind, ident_atom, word_atom, ident_owns_nothing, word_owns_nothing};
ghost use Rattle.ecma_word.specs.declared.word.Word.TheVariants as a_word;
ghost use Rattle.ecma_word.specs.declared.word.WordKind.TheVariants as a_kind;

use crate::keyword::Keyword;
use crate::known_ident::KnownIdent;
use crate::short_words;
use ecma_span::Atom;
use std::alloc::{AllocError, Global};
use std::convert::AsStr;
use std::fmt;
use std::str::FromStr;

/// A name: a known one, or any other with its text.
#[derive(Debug, PartialEq, Eq, Hash, Drop)]
pub enum IdentLike<'a> {
    Known(KnownIdent),
    Other(Atom<'a>),
}

/// A name without its text.
#[derive(Debug, Clone, Copy, PartialEq, Eq, Hash)]
pub enum IdentKind {
    Known(KnownIdent),
    Other,
}

/// A word: an IdentifierName of ECMA-262, 12.7, sorted by the table of words.
#[derive(PartialEq, Eq, Hash, Drop)]
pub enum Word<'a> {
    Keyword(Keyword),
    Null,
    True,
    False,
    Ident(IdentLike<'a>),
}

/// A word without the text of its name.
#[derive(Debug, Clone, Copy, PartialEq, Eq, Hash)]
pub enum WordKind {
    Keyword(Keyword),
    Null,
    True,
    False,
    Ident(IdentKind),
}

impl WordKind {
    /// The known name of this kind.
    pub fn known(self) -> Option<KnownIdent>
        ensures { result ≡ known_of_kind self }
    {
        match self {
            WordKind::Ident(IdentKind::Known(known)) => Some(known),
            _ => None,
        }
    }
}

/// The name with this text; a text of no known name is borrowed. It does not allocate.
impl<'a> From<&'a str> for IdentLike<'a> {
    ghost from_gives = { λ text ident. ident ≡ ident_of text.now };

    fn from(text: &'a str) -> IdentLike<'a> {
        match KnownIdent::from_str(text) {
            Ok(known) => IdentLike::Known(known),
            Err(()) => IdentLike::Other(Atom::from(text)),
        }
    }
}

impl<'a> IdentLike<'a> {
    /// The name as it is written.
    pub fn as_str(&self) -> &str
        ensures { result.now ≡ ident_text self.now }
    {
        match self {
            IdentLike::Known(known) => known.as_str(),
            IdentLike::Other(text) => text.as_str(),
        }
    }

    /// The name without its text.
    pub fn kind(&self) -> IdentKind
        ensures { result ≡ ident_kind_of self.now }
    {
        match self {
            IdentLike::Known(known) => IdentKind::Known(*known),
            IdentLike::Other(_) => IdentKind::Other,
        }
    }

    /// The same name; only an owned text allocates.
    pub fn copy(&self, alloc: Global) -> Result<IdentLike<'a>, AllocError>
        ensures same { IfOk result (λ ident. ident ≡ self.now) }
        ensures free { IsTrue (ident_owns_nothing self.now) → IsOk result }
    {
        match self {
            IdentLike::Known(known) => Ok(IdentLike::Known(*known)),
            IdentLike::Other(text) => Ok(IdentLike::Other(text.copy(alloc)?)),
        }
    }
}

impl<'a> Word<'a> {
    /// The word with this text: a row of the table of words, else a name that borrows the text. It does not allocate.
    pub fn from_str(text: &'a str) -> Word<'a>
        ensures { result ≡ word_of text.now }
    {
        Word::of_kind(short_words::kind_of(text), text)
    }

    /// What the word with this text is. It does not allocate.
    pub fn kind_of(text: &str) -> WordKind
        ensures { result ≡ word_kind (word_of text.now) }
    {
        short_words::kind_of(text)
    }

    /// The word of this kind; an other name borrows the text. It does not allocate.
    #[inline(always)]
    pub fn of_kind(kind: WordKind, text: &'a str) -> Word<'a>
        ensures { result ≡ word_of_kind kind text.now }
    {
        match kind {
            WordKind::Keyword(keyword) => Word::Keyword(keyword),
            WordKind::Null => Word::Null,
            WordKind::True => Word::True,
            WordKind::False => Word::False,
            WordKind::Ident(IdentKind::Known(known)) => Word::Ident(IdentLike::Known(known)),
            WordKind::Ident(IdentKind::Other) => Word::Ident(IdentLike::Other(Atom::from(text))),
        }
    }

    /// The word as it is written.
    pub fn as_str(&self) -> &str
        ensures { result.now ≡ word_text self.now }
    {
        match self {
            Word::Keyword(keyword) => keyword.as_str(),
            Word::Null => "null",
            Word::True => "true",
            Word::False => "false",
            Word::Ident(ident) => ident.as_str(),
        }
    }

    /// The word without the text of its name.
    pub fn kind(&self) -> WordKind
        ensures { result ≡ word_kind self.now }
    {
        match self {
            Word::Keyword(keyword) => WordKind::Keyword(*keyword),
            Word::Null => WordKind::Null,
            Word::True => WordKind::True,
            Word::False => WordKind::False,
            Word::Ident(ident) => WordKind::Ident(ident.kind()),
        }
    }

    /// The same word; only an owned text allocates.
    pub fn copy(&self, alloc: Global) -> Result<Word<'a>, AllocError>
        ensures same { IfOk result (λ word. word ≡ self.now) }
        ensures free { IsTrue (word_owns_nothing self.now) → IsOk result }
    {
        match self {
            Word::Keyword(keyword) => Ok(Word::Keyword(*keyword)),
            Word::Null => Ok(Word::Null),
            Word::True => Ok(Word::True),
            Word::False => Ok(Word::False),
            Word::Ident(ident) => Ok(Word::Ident(ident.copy(alloc)?)),
        }
    }
}

/// The name as it is written, for callers that take any text.
impl<'a> AsStr for IdentLike<'a> {
    ghost text = { ident_text };

    fn as_str(&self) -> &str {
        IdentLike::as_str(self)
    }
}

/// The name's text, borrowed or owned as the name has it.
impl<'a> From<IdentLike<'a>> for Atom<'a> {
    ghost from_gives = { λ ident atom. atom ≡ ident_atom ident };

    fn from(ident: IdentLike<'a>) -> Atom<'a> {
        match ident {
            IdentLike::Known(known) => Atom::from(known),
            IdentLike::Other(text) => text,
        }
    }
}

/// The word's text, borrowed or owned as the word has it.
impl<'a> From<Word<'a>> for Atom<'a> {
    ghost from_gives = { λ word atom. atom ≡ word_atom word };

    fn from(word: Word<'a>) -> Atom<'a> {
        let fixed = match word {
            Word::Keyword(keyword) => keyword.as_str(),
            Word::Null => "null",
            Word::True => "true",
            Word::False => "false",
            Word::Ident(ident) => return Atom::from(ident),
        };
        Atom::from(fixed)
    }
}

impl<'a> From<Keyword> for Word<'a> {
    ghost from_gives = { λ keyword word. word ≡ a_word.Keyword keyword };

    fn from(value: Keyword) -> Word<'a> {
        Word::Keyword(value)
    }
}

impl From<Keyword> for WordKind {
    ghost from_gives = { λ keyword kind. kind ≡ a_kind.Keyword keyword };

    fn from(value: Keyword) -> WordKind {
        WordKind::Keyword(value)
    }
}

/// The name as it is written.
impl<'a> fmt::Display for IdentLike<'a> {
    ghost output = { λ i. Some (ident_text i) };

    fn fmt<W: fmt::Write>(&self, f: &mut fmt::Formatter<W>) -> fmt::Result {
        let text = self.as_str();
        f.write_str(text)
    }
}

/// The text of the word.
impl<'a> fmt::Debug for Word<'a> {
    ghost debug_output = { λ w. Some (word_text w) };

    fn fmt<W: fmt::Write>(&self, f: &mut fmt::Formatter<W>) -> fmt::Result {
        f.write_str(self.as_str())
    }
}
