//! What is kept of the answers.
ghost use Rattle.std.specs.Prelude.{◌≡◌, None, Some, option_map};
ghost use Rattle.ecma_token.specs.View.{spanned_view};
ghost use Rattle.ecma_state.specs.Session.{kept_of, kept_in};
ghost use Rattle.ecma_state.specs.State as state;
ghost use Rattle.ecma_state.specs.State.{none_seen, seen_behind, previous, flag_of, last_slash};

use ecma_place::{BytePos, Span};
use ecma_syntax::{AssignOp, BinOpToken};
use ecma_token::{TokenAndSpan, TokenKind};

/// What is kept of a token that was read.
#[derive(Debug, Clone, Copy, PartialEq, Eq)]
pub struct Kept {
    pub kind: TokenKind,
    pub span: Span,
    /// Whether a line terminator comes before the token.
    pub flag: bool,
}

impl Kept {
    /// What is kept of a token.
    #[tactic(auto, using(ecma_token::proofs::KindLemmas::kind_of_token_view))]
    #[inline(always)]
    pub fn of(token: &TokenAndSpan) -> Kept
        ensures { result ≡ kept_of (spanned_view token.now) }
    {
        Kept {
            kind: token.token.kind(),
            span: token.span,
            flag: token.had_line_break,
        }
    }

    /// What is kept of an answer.
    pub fn of_answer(answer: &Option<TokenAndSpan>) -> Option<Kept>
        ensures { result ≡ kept_in (option_map spanned_view answer.now) }
    {
        match answer {
            Some(token) => Some(Kept::of(token)),
            None => None,
        }
    }
}

/// What a lexer keeps of its answers.
#[derive(Debug, Clone, Copy, PartialEq, Eq)]
pub struct Seen {
    /// Whether no token but a shebang was read.
    pub first: bool,
    /// The token that was read last.
    pub last: Option<Kept>,
    /// The flag of the last answer, also where that was the end.
    pub flag: bool,
    /// Whether the last read was the end.
    pub ended: bool,
}

fn is_shebang(kind: TokenKind) -> bool
    ensures { result ≡ state.is_shebang kind }
{
    matches!(kind, TokenKind::Shebang)
}

/// Whether the token is `/` or `/=`.
fn is_slash(kind: TokenKind) -> bool
    ensures { result ≡ state.is_slash kind }
{
    matches!(
        kind,
        TokenKind::BinOp(BinOpToken::Div) | TokenKind::AssignOp(AssignOp::DivAssign)
    )
}

impl Seen {
    /// Before any answer.
    pub fn none() -> Seen
        ensures { result ≡ none_seen }
    {
        Seen {
            first: true,
            last: None,
            flag: false,
            ended: false,
        }
    }

    /// Takes in a token that is read.
    #[inline(always)]
    pub(crate) fn give(&mut self, token: Kept)
        ensures { self.new ≡ seen_behind self.old token.flag (Some token) }
    {
        self.first = is_shebang(token.kind) && self.first;
        self.last = Some(token);
        self.flag = token.flag;
        self.ended = false;
    }

    /// Takes in the end, with the flag before it.
    pub fn end(&mut self, flag: bool)
        ensures { self.new ≡ seen_behind self.old flag None }
    {
        self.flag = flag;
        self.ended = true;
    }

    /// The kind of the token that was read last.
    pub fn previous(self) -> Option<TokenKind>
        ensures { result ≡ previous self }
    {
        self.last.map(|token| token.kind)
    }

    /// Where the slash is that was read last, if the last answer was one.
    pub fn last_slash(self) -> Option<BytePos>
        ensures { result ≡ last_slash self }
    {
        match self.last {
            Some(token) if !self.ended && is_slash(token.kind) => Some(token.span.lo),
            _ => None,
        }
    }

    /// The flag of the token that was read last; false where there is none.
    pub(crate) fn previous_flag(self) -> bool
        ensures { result ≡ flag_of self.last }
    {
        match self.last {
            Some(token) => token.flag,
            None => false,
        }
    }
}
