//! Which slashes begin regular expressions.
ghost use Rattle.std.specs.Prelude.{◌≡◌, true};
ghost use Rattle.ecma_slashes.specs.Rereads.{ascend, is_in_order, is_among, names, rule_of};
ghost use Rattle.ecma_slashes.specs.Alone as alone;

use ecma_place::BytePos;

/// Which slashes begin regular expressions, where there is no parser above: each `/` or `/=` that it names is read again
/// ([`read_by`](crate::read_by), [`read_deciding`](crate::read_deciding)). Our own.
#[derive(Clone, Copy, Debug, PartialEq, Eq)]
pub enum Slashes<'a> {
    /// Those before which an expression is allowed, by the lexer's own flag.
    ByFlag,
    /// Those at these places, each behind the one before it ([`ascend`]).
    At(&'a [BytePos]),
    /// Those where an operand is expected, by the tokens before them alone ([`Track`](ecma_roles::Track)).
    ByRole,
    /// Those of the tokens with these numbers, the first of which has the number 1: each number once that before it was met.
    /// So where one of them is no slash, or is not greater than that before it, none behind it is read again.
    Numbered(&'a [u64]),
}

/// Whether each place is behind the one before it. Our own.
pub fn ascend(places: &[BytePos]) -> bool
    ensures { result ≡ ascend places.now }
{
    let Some((first, behind)) = places.split_first() else {
        return true;
    };
    let mut last = first.0;
    'places: for place in behind {
        if place.0 <= last {
            return false;
        }
        last = place.0;
    }
    true
}

/// Whether the slash is at one of these places.
fn is_among(places: &[BytePos], slash: BytePos) -> bool
    requires { ascend places.now ≡ true }
    ensures { result ≡ is_among places.now slash }
{
    places.binary_search(&slash).is_ok()
}

impl<'a> Slashes<'a> {
    /// The rule where the tokens before are not at hand.
    #[inline]
    pub(crate) fn alone(self) -> Slashes<'a>
        ensures { rule_of result ≡ alone.rule_of self.entry }
    {
        match self {
            Slashes::ByFlag | Slashes::At(_) => self,
            Slashes::ByRole | Slashes::Numbered(_) => Slashes::At(&[]),
        }
    }

    /// Whether this slash begins a regular expression, before which an expression is allowed or not, and is expected by the
    /// tokens before or not.
    pub(crate) fn name(self, allowed: bool, expected: bool, slash: BytePos) -> bool
        requires { is_in_order (rule_of self) ≡ true }
        ensures { result ≡ names (rule_of self.entry) allowed expected slash }
    {
        match self {
            Slashes::ByFlag => allowed,
            Slashes::At(places) => is_among(places, slash),
            Slashes::ByRole | Slashes::Numbered(_) => expected,
        }
    }
}
