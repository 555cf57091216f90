//! What decides which slashes begin regular expressions, as far as a text is read.
ghost use Rattle.std.specs.Prelude.{◌≡◌, Bool, [], None, Some, option_map, OnErr, OnOk, IfOk, IsOk};
ghost use Rattle.ecma_token.specs.View.{spanned_view};
ghost use Rattle.ecma_role_table.specs.declared.part.Part.{Part};
ghost use Rattle.ecma_state.specs.Session.{Session};
ghost use Rattle.ecma_syntax.specs.declared.context.Context.{Context};
ghost use Rattle.ecma_slashes.specs.Alone as alone;
ghost use Rattle.ecma_slashes.specs.Known as knowledge;
ghost use Rattle.ecma_slashes.specs.Known.{awaiting, expected_by, known_behind};
ghost use Rattle.ecma_slashes.specs.Rereads.{Decides, HasRoom, MayName, asks_nothing, by_role, known_to, rule_of, says};
ghost use Rattle.ecma_slashes.specs.Roles as roles;

use crate::slashes::Slashes;
use ecma_place::BytePos;
use ecma_role_table::frame::FrameKind;
use ecma_role_table::state::State;
use ecma_roles::{Part, Track};
use ecma_state::kept::Kept;
use ecma_state::settings::Settings;
use ecma_syntax::{AssignOp, Context};
use ecma_token::{TokenAndSpan, TokenKind};
use std::alloc::{AllocError, Global};

/// What is expected behind tokens: the state of their track, and the innermost bracket that is open, or mark.
#[derive(Clone, Copy)]
pub struct Expected {
    pub state: State,
    pub top: Option<FrameKind>,
}

/// Decides which slashes begin regular expressions, behind the tokens that were read so far. Our own.
#[derive(Drop)]
pub struct Decider<'a> {
    pub(crate) slashes: Slashes<'a>,
    /// What the tokens so far lead to, but for the last of them, where the rule asks for it.
    track: Option<Track>,
    /// The last token, where there is a track: it is taken into account before the next is read, so that a refusal loses none.
    last: Option<Part>,
    /// How many tokens are to come up to that with the next number, where the rule has numbers.
    left: u64,
    /// This number and those behind it.
    numbers: &'a [u64],
}

/// What says which slash begins a regular expression.
#[derive(Clone, Copy)]
pub(crate) enum Namer<'d> {
    /// A rule that asks nothing of the tokens before.
    Rule(Slashes<'d>),
    /// A decider that took all tokens before into account.
    Decider(&'d Decider<'d>),
}

/// Whether the token is `/=`.
fn is_assign(slot: &Option<TokenAndSpan>) -> bool
    ensures { result ≡ roles.is_assign (option_map spanned_view slot.now) }
{
    match slot {
        Some(token) => matches!(
            Kept::of(token).kind,
            TokenKind::AssignOp(AssignOp::DivAssign)
        ),
        None => false,
    }
}

/// What is seen of the token.
fn part_of(token: &TokenAndSpan) -> Part
    ensures { result ≡ roles.part_in (spanned_view token.now) }
{
    let kept = Kept::of(token);
    Part::of_kind(kept.kind, kept.flag)
}

/// How many tokens are to come up to that with the first of these numbers, where so many are kept.
fn distance(kept: u64, numbers: &[u64]) -> u64
    ensures { result ≡ knowledge.distance kept numbers.now }
{
    match numbers.first() {
        Some(number) => number.saturating_sub(kept),
        None => 0,
    }
}

impl<'d> Namer<'d> {
    /// Whether this slash, which was read into the slot, begins a regular expression; before it an expression is allowed or
    /// not.
    pub(crate) fn names(self, allowed: bool, slot: &Option<TokenAndSpan>, slash: BytePos) -> bool
        requires { MayName self }
        ensures { result ≡ says self.entry allowed (roles.is_assign (option_map spanned_view slot.now)) slash }
    {
        match self {
            Namer::Rule(slashes) => slashes.name(allowed, false, slash),
            Namer::Decider(decider) => {
                let expected = decider.expects(is_assign(slot));
                decider.slashes.name(allowed, expected, slash)
            }
        }
    }
}

impl<'a> Decider<'a> {
    /// Before the first token of a text with these settings, in a context. It does not allocate.
    pub fn new(
        alloc: Global,
        settings: &Settings,
        context: &Context,
        slashes: Slashes<'a>,
    ) -> Decider<'a>
        ensures decides { (s : Session) → s.settings ≡ settings.now → s.context ≡ context.now → s.past ≡ [] → Decides (rule_of slashes.entry) s result }
        ensures slashes { result.slashes ≡ slashes.entry }
    {
        let track = match slashes {
            Slashes::ByRole => Some(Track::new(
                alloc,
                settings.syntax.typescript(),
                context.module,
            )),
            _ => None,
        };
        let numbers: &[u64] = match slashes {
            Slashes::Numbered(numbers) => numbers,
            _ => &[],
        };
        Decider {
            slashes,
            track,
            last: None,
            left: distance(0, numbers),
            numbers,
        }
    }

    /// Where the tokens before are not at hand. It does not allocate.
    pub(crate) fn alone(slashes: Slashes<'a>) -> Decider<'a>
        ensures decides { (s : Session) → Decides (alone.rule_of slashes.entry) s result }
        ensures rule { rule_of result.slashes ≡ alone.rule_of slashes.entry }
    {
        Decider {
            slashes: slashes.alone(),
            track: None,
            last: None,
            left: 0,
            numbers: &[],
        }
    }

    /// Whether nothing is asked of the tokens before, and nothing of those that come.
    #[inline]
    pub(crate) fn asks_nothing(&self) -> bool
        ensures { result ≡ asks_nothing (rule_of self.now.slashes) self.now.numbers.now }
    {
        match self.slashes {
            Slashes::ByFlag | Slashes::At(_) => true,
            Slashes::ByRole => false,
            Slashes::Numbered(_) => self.numbers.is_empty(),
        }
    }

    /// Whether the tokens before let expect an expression where a slash comes next, with or without `=` behind it.
    fn expects(&self, is_assign: bool) -> bool
        requires { self.now.last ≡ None }
        ensures { result ≡ expected_by (known_to self.now) is_assign }
    {
        match self.slashes {
            Slashes::ByFlag | Slashes::At(_) => false,
            Slashes::ByRole => match &self.track {
                Some(track) => track.expects_operand(is_assign),
                None => false,
            },
            Slashes::Numbered(_) => self.left == 1,
        }
    }

    /// Whether what the rule asks of the tokens before says that a slash which comes next, with or without `=` behind it,
    /// begins a regular expression; no, where it asks nothing of them.
    ///
    /// # Errors
    ///
    /// `AllocError` where what the last token opens can't be allocated. Nothing is then changed.
    pub fn expects_operand(&mut self, is_assign: bool) -> Result<bool, AllocError>
        ensures told { IfOk result (λ expects. expects ≡ expected_by (known_to self.old) is_assign) }
        ensures follows { known_to self.new ≡ known_to self.old }
        ensures slashes { self.new.slashes ≡ self.old.slashes }
        ensures err { OnErr result (self.new ≡ self.old) }
        ensures free { HasRoom self.old.track → IsOk result }
    {
        self.catch_up()?;
        Ok(self.expects(is_assign))
    }

    /// What is expected by the track, where the rule goes by one.
    fn expectation(&self) -> Option<Expected>
        requires { self.now.last ≡ None }
        ensures { result ≡ knowledge.expected_next (known_to self.now) }
    {
        match self.slashes {
            Slashes::ByFlag | Slashes::At(_) | Slashes::Numbered(_) => None,
            Slashes::ByRole => match &self.track {
                Some(track) => Some(Expected {
                    state: track.state(),
                    top: track.top(),
                }),
                None => None,
            },
        }
    }

    /// What is expected behind the tokens so far; nothing is known of that where slashes are not named by role.
    ///
    /// # Errors
    ///
    /// `AllocError` where what the last token opens can't be allocated. Nothing is then changed.
    pub fn expected(&mut self) -> Result<Option<Expected>, AllocError>
        ensures told { IfOk result (λ expected. expected ≡ knowledge.expected_next (known_to self.old)) }
        ensures follows { known_to self.new ≡ known_to self.old }
        ensures slashes { self.new.slashes ≡ self.old.slashes }
        ensures err { OnErr result (self.new ≡ self.old) }
        ensures free { HasRoom self.old.track → IsOk result }
    {
        self.catch_up()?;
        Ok(self.expectation())
    }

    /// The same decider. It does not allocate where at most 64 frames enclose the place.
    ///
    /// # Errors
    ///
    /// `AllocError` where allocation fails for the frames.
    pub fn copy(&self) -> Result<Decider<'a>, AllocError>
        ensures copy { IfOk result (λ copy. copy ≡ self.now) }
        ensures free { HasRoom self.now.track → IsOk result }
    {
        let track = match &self.track {
            Some(track) => Some(track.copy()?),
            None => None,
        };
        Ok(Decider {
            slashes: self.slashes,
            track,
            last: self.last,
            left: self.left,
            numbers: self.numbers,
        })
    }

    /// Takes the last token into account.
    ///
    /// # Errors
    ///
    /// `AllocError` where it can't be allocated. Nothing is then changed.
    #[inline]
    pub(crate) fn catch_up(&mut self) -> Result<(), AllocError>
        ensures follows { known_to self.new ≡ known_to self.old }
        ensures caught_up { OnOk result (self.new.last ≡ None) }
        ensures slashes { self.new.slashes ≡ self.old.slashes }
        ensures err { OnErr result (self.new ≡ self.old) }
        ensures free { HasRoom self.old.track → IsOk result }
    {
        match self.last {
            Some(part) => self.take_last(part),
            None => Ok(()),
        }
    }

    /// Takes the last token into account, which is this one.
    #[inline(never)]
    fn take_last(&mut self, part: Part) -> Result<(), AllocError>
        requires { self.old.last ≡ Some part }
        ensures follows { known_to self.new ≡ known_to self.old }
        ensures caught_up { OnOk result (self.new.last ≡ None) }
        ensures slashes { self.new.slashes ≡ self.old.slashes }
        ensures err { OnErr result (self.new ≡ self.old) }
        ensures free { HasRoom self.old.track → IsOk result }
    {
        if let Some(track) = &mut self.track {
            track.step(&part)?;
        }
        self.last = None;
        Ok(())
    }

    /// One token more is kept, whose slash was read again or not.
    fn count(&mut self, again: bool)
        ensures counts { (part : Part) → known_behind (awaiting self.old.left self.old.numbers.now) again (Some part) ≡ awaiting self.new.left self.new.numbers.now }
        ensures slashes { self.new.slashes ≡ self.old.slashes }
        ensures track { self.new.track ≡ self.old.track }
        ensures last { self.new.last ≡ self.old.last }
    {
        match self.numbers {
            [number, behind @ ..] if again => {
                self.left = distance(*number, behind);
                self.numbers = behind;
            }
            _ => self.left = self.left.saturating_sub(1),
        }
    }

    /// Takes a token into account where the track does so at once, else keeps what is seen of it.
    #[inline(always)]
    #[tactic(auto, using(ecma_token::proofs::KindLemmas::kind_of_token_view))]
    fn follow(&mut self, token: &TokenAndSpan)
        requires caught_up { self.old.last ≡ None }
        requires by_role { rule_of self.old.slashes ≡ by_role }
        ensures follows { (again : Bool) → known_to self.new ≡ known_behind (known_to self.old) again (Some (roles.part_in (spanned_view token.now))) }
        ensures slashes { self.new.slashes ≡ self.old.slashes }
    {
        if let Some(track) = &mut self.track {
            if track.pass(&token.token, token.had_line_break) {
                return;
            }
        }
        self.keep(token);
    }

    /// Keeps what is seen of a token.
    #[inline(never)]
    fn keep(&mut self, token: &TokenAndSpan)
        ensures last { self.new.last ≡ Some (roles.part_in (spanned_view token.now)) }
        ensures same { (self.new.slashes ≡ self.old.slashes) × (self.new.track ≡ self.old.track) × (self.new.left ≡ self.old.left) × (self.new.numbers ≡ self.old.numbers) }
    {
        self.last = Some(part_of(token));
    }

    /// Takes in what was read, a token in whose place none is read again; a slash was read again for it or not.
    #[inline]
    pub(crate) fn pass(&mut self, slot: &Option<TokenAndSpan>, again: bool)
        requires caught_up { self.old.last ≡ None }
        ensures follows { known_to self.new ≡ known_behind (known_to self.old) again (option_map roles.part_in (option_map spanned_view slot.now)) }
        ensures slashes { self.new.slashes ≡ self.old.slashes }
    {
        let Some(token) = slot else {
            return;
        };
        if let Slashes::ByRole = self.slashes {
            self.follow(token);
        } else if let Slashes::Numbered(_) = self.slashes {
            self.count(again);
        }
    }
}
