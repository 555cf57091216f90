//! Texts that borrow from the source, or own their bytes.
ghost use Rattle.std.specs.Prelude.{◌≡◌, Some, IfOk, IsOk, nat_eq, IsTrue};
ghost use Rattle.std.proofs.Common.{rules};
ghost use Rattle.std.specs.Fmt.{debug_str};
ghost use Rattle.std.specs.Hash as fed;
ghost use Rattle.std.specs.Cmp.{on_equiv, on_per};
ghost use Rattle.std.specs.Cmp;
ghost use Rattle.std.specs.Cmp.Rules.{hashing};
ghost use Rattle.std.specs.Cmp.Lexicographic.{pointwise, nat_list_eq_equiv};

use std::alloc::{AllocError, Global};
use std::borrow::CowStr;
use std::fmt;
use std::fmt::{Debug, Display, Formatter};
use std::hash::{Hash, Hasher};
use std::marker::Model;

/// A text of the source: a slice of it, or an owned `String` where the source spells the text
/// otherwise, as with an escape.
///
/// Two atoms are equal where their bytes are, however they are held, and equal atoms hash equally.
pub struct Atom<'a> {
    text: CowStr<'a>,
}

/// By hand, so that a function that drops an atom proves one call: of a derived `drop` each such function proves how a `String`
/// is freed, for each atom of each variant of a token. Inlined, it costs a read what a derived one does.
impl<'a> Drop for Atom<'a> {
    #[inline(always)]
    fn drop(self) {
        let Atom { text: _ } = self;
    }
}

impl<'a> Model for Atom<'a> {
    ghost use Rattle.std.specs.Cow.{cow_str_bytes};
    ghost use Rattle.ecma_span.specs.Atom.{AtomView, is_borrowed_of};

    ghost Value = { AtomView };

    ghost view = { λ a. record { bytes = cow_str_bytes a.text; is_borrowed = is_borrowed_of a.text } };
}

impl<'a> Atom<'a> {
    /// The text itself.
    #[inline]
    pub fn as_str(&self) -> &str
        ensures { result.now ≡ self.now.bytes }
    {
        self.text.as_str()
    }

    /// Whether the text is a slice of the source. False for an owned text.
    #[inline]
    pub fn is_borrowed(&self) -> bool
        ensures { result ≡ self.now.is_borrowed }
    {
        matches!(self.text, CowStr::Borrowed(_))
    }

    /// The same text, borrowed or owned as this one is.
    ///
    /// A borrowed text does not allocate.
    ///
    /// # Errors
    ///
    /// `AllocError` where allocation fails for the bytes of an owned text.
    pub fn copy(&self, alloc: Global) -> Result<Atom<'a>, AllocError>
        ensures same { IfOk result (λ a. a ≡ self.now) }
        ensures free { IsTrue self.now.is_borrowed → IsOk result }
    {
        match &self.text {
            CowStr::Borrowed(s) => Ok(Atom {
                text: CowStr::Borrowed(*s),
            }),
            CowStr::Owned(s) => Ok(Atom {
                text: CowStr::Owned(String::from_str(alloc, s.as_str())?),
            }),
        }
    }
}

impl<'a> From<&'a str> for Atom<'a> {
    ghost use Rattle.ecma_span.specs.Atom.{borrowed_atom};

    ghost from_gives = { λ s a. a ≡ borrowed_atom s.now };

    /// The atom that borrows the slice.
    #[inline]
    fn from(s: &'a str) -> Atom<'a> {
        Atom {
            text: CowStr::Borrowed(s),
        }
    }
}

impl<'a> From<String> for Atom<'a> {
    ghost use Rattle.std.specs.Prelude.{string_bytes};
    ghost use Rattle.ecma_span.specs.Atom.{owned_atom};

    ghost from_gives = { λ s a. a ≡ owned_atom (string_bytes s) };

    /// The atom that owns the string.
    #[inline]
    fn from(s: String) -> Atom<'a> {
        Atom {
            text: CowStr::Owned(s),
        }
    }
}

impl<'a> PartialEq for Atom<'a> {
    ghost eq = { λ x y. pointwise nat_eq x.bytes y.bytes };

    ghost laws = { on_per (λ a. a.bytes) (Cmp.partial_equiv_from_equiv nat_list_eq_equiv) };

    #[inline]
    fn eq(&self, other: &Self) -> bool {
        self.as_str() == other.as_str()
    }
}

impl<'a> Eq for Atom<'a> {
    ghost laws = { on_equiv (λ a. a.bytes) nat_list_eq_equiv };
}

impl<'a> Hash for Atom<'a> {
    ghost hash_input = { λ a. fed.str a.bytes };

    ghost respects_eq = { Prim.search (hashing, rules) };

    fn hash<H: Hasher>(&self, state: &mut H) {
        self.as_str().hash(state);
    }
}

impl<'a> Display for Atom<'a> {
    ghost output = { λ a. Some a.bytes };

    /// Writes the text, padded as the format asks.
    fn fmt<W: fmt::Write>(&self, f: &mut Formatter<W>) -> fmt::Result {
        f.pad(self.as_str())
    }
}

impl<'a> Debug for Atom<'a> {
    ghost debug_output = { λ a. debug_str a.bytes };

    /// Writes the text in quotes, escaped as `str` is.
    fn fmt<W: fmt::Write>(&self, f: &mut Formatter<W>) -> fmt::Result {
        Debug::fmt(&self.as_str(), f)
    }
}
