//! A track of tokens.
ghost use Rattle.std.specs.Prelude.{◌≡◌, ◌+◌, ◌≤◌, IfOk, IsOk, OnOk, OnErr, Some, true, false};
ghost use Rattle.ecma_token.specs.Kinds.{token_kind};
ghost use Rattle.ecma_role_table.specs.Parts.{part_of};
ghost use Rattle.ecma_role_moves.specs.Nest as nests;
ghost use Rattle.ecma_role_moves.specs.Nest.{IsShallow};
ghost use Rattle.ecma_role_moves.specs.Moves.{turned_to};
ghost use Rattle.ecma_role_tracks.specs.Slashes as slashes;
ghost use Rattle.ecma_role_tracks.specs.Track as tracks;

use crate::fast::{take, take_kind};
use crate::slash::expects_operand;
use ecma_role_moves::nest::Nest;
use ecma_role_moves::perform::perform;
use ecma_role_table::frame::{Around, FrameKind, Kinds, over_async_candidate};
use ecma_role_table::moves::Turn;
use ecma_role_table::part::{Name, Part, PartKind, Reserved, Sign};
use ecma_role_table::state::State;
use ecma_role_table::table::{Seen, row};
use ecma_token::{Token, TokenKind};
use std::alloc::{AllocError, Global};
use std::marker::Model;

/// How many times a token is read at most. Each time that it is read again that is in a state of lower rank.
const MOST_READS: usize = 8;

/// What is expected behind the tokens that were read: our own choice, as ECMA-262, 12.1, leaves it to the parser where a
/// slash begins a regular expression.
#[derive(Drop)]
pub struct Track {
    state: State,
    nest: Nest,
    typescript: bool,
}

impl Model for Track {
    ghost use Rattle.ecma_role_tracks.specs.Track.{TrackView, track};

    ghost Value = { TrackView };

    ghost view = { λ t. track t.state t.nest.nest t.typescript };
}

/// Whether no type argument holds such a token, so that `<` before it was an operator.
fn ends_candidates(kind: PartKind, had_line_break: bool) -> bool
    ensures { result ≡ tracks.ends_candidates had_line_break kind }
{
    match kind {
        PartKind::Name(Name::As | Name::Satisfies) => true,
        PartKind::Name(_) => had_line_break,
        PartKind::Reserved(Reserved::In | Reserved::InstanceOf) => true,
        PartKind::Reserved(Reserved::Extends) => false,
        PartKind::Reserved(_) => had_line_break,
        PartKind::Sign(sign) => matches!(
            sign,
            Sign::Star
                | Sign::Minus
                | Sign::Assign
                | Sign::Operator
                | Sign::RShiftEq
                | Sign::ZeroFillRShiftEq
                | Sign::QuestionMark
                | Sign::Semi
                | Sign::Update
                | Sign::Tilde
                | Sign::Bang
                | Sign::LParen
        ),
    }
}

/// The same with this frame around: behind `async <` a type parameter may have a default.
fn ends_over(over: Option<FrameKind>, kind: PartKind, had_line_break: bool) -> bool
    ensures { result ≡ tracks.ends_over over had_line_break kind }
{
    if matches!(kind, PartKind::Sign(Sign::Assign)) && over_async_candidate(over) {
        return false;
    }
    ends_candidates(kind, had_line_break)
}

/// Behind a pattern in parentheses of a type, they are parameters or a group.
fn end_pattern(nest: &mut Nest, kind: PartKind)
    ensures nest { nest.new.nest ≡ tracks.behind_pattern kind nest.old.nest }
    ensures room { nest.new.room ≡ nest.old.room }
{
    match kind {
        PartKind::Sign(Sign::LBracket | Sign::LBrace | Sign::RParen) => {}
        PartKind::Sign(Sign::Colon | Sign::Comma | Sign::QuestionMark | Sign::Assign) => {
            nest.turn(FrameKind::OuterParameters)
        }
        _ => nest.turn(FrameKind::OuterParen),
    }
}

/// Decides what is decided before a row is looked up.
fn ready(nest: &mut Nest, state: State, kind: PartKind, had_line_break: bool)
    ensures nest { nest.new.nest ≡ tracks.readied state kind had_line_break nest.old.nest }
    ensures room { nest.old.room ≤ nest.new.room }
{
    match state {
        State::After => {
            if ends_over(nest.top(), kind, had_line_break) {
                nest.drop_all(Kinds::Candidates);
            }
        }
        State::TypeBrackets => {
            if let Some(FrameKind::OuterPattern) = nest.top() {
                end_pattern(nest, kind);
            }
        }
        _ => {}
    }
}

/// Reads a token of this kind once. Inside the loop of [`read`] all that its arms have in common would be worked out for
/// each token.
#[inline(never)]
#[tactic(auto, unfolding(ecma_role_tracks::specs::Track::read_once))]
fn read_once(
    nest: &mut Nest,
    state: State,
    typescript: bool,
    kind: PartKind,
    had_line_break: bool,
) -> Turn
    requires { 2 ≤ nest.old.room }
    ensures nest { turned_to result nest.new.nest ≡ tracks.read_once (tracks.track state nest.old.nest typescript) kind had_line_break }
    ensures room { nest.old.room ≤ nest.new.room + 2 }
{
    ready(nest, state, kind, had_line_break);
    let seen = Seen {
        had_line_break,
        typescript,
        around: nest.around(),
        method: nest.pending(),
        top: nest.top(),
        under: nest.under(),
    };
    perform(nest, row(state, kind, seen), kind)
}

/// Reads a token, for which there is room, and the state behind it.
fn read(nest: &mut Nest, state: State, typescript: bool, part: Part) -> State
    requires { 16 ≤ nest.old.room }
    ensures { tracks.track result nest.new.nest typescript ≡ tracks.stepped (tracks.track state nest.old.nest typescript) part }
{
    let mut state = state;
    let mut kind = part.kind;
    'reads: for read in 0..MOST_READS {
        match read_once(nest, state, typescript, kind, part.had_line_break) {
            Turn::Done(behind) => return behind,
            Turn::Again(next, left) => {
                state = next;
                kind = left;
            }
        }
    }
    state
}

impl Track {
    /// Before the first token of TypeScript or ECMAScript, of a module or a script, which does not allocate.
    pub fn new(alloc: Global, typescript: bool, is_module: bool) -> Track
        ensures { result ≡ tracks.first typescript is_module }
    {
        Track {
            state: State::Statement,
            nest: Nest::new(
                alloc,
                Around {
                    is_async: is_module,
                    is_generator: false,
                },
            ),
            typescript,
        }
    }

    /// Takes one token more into account where that is known without the table, and says whether it is; else nothing is
    /// changed. It does not allocate.
    #[inline(always)]
    pub fn pass(&mut self, token: &Token, had_line_break: bool) -> bool
        ensures passed { result ≡ true → self.new ≡ tracks.stepped self.old (part_of (token_kind token.now) had_line_break) }
        ensures left { result ≡ false → self.new ≡ self.old }
    {
        match take(&mut self.nest, self.state, token, had_line_break) {
            Some(state) => {
                self.state = state;
                true
            }
            None => false,
        }
    }

    /// Takes a token of which the kind is kept into account, as [`Track::pass`] does, and says whether it did. It does not
    /// allocate.
    pub fn pass_kind(&mut self, kind: TokenKind, had_line_break: bool) -> bool
        ensures passed { result ≡ true → self.new ≡ tracks.stepped self.old (part_of kind had_line_break) }
        ensures left { result ≡ false → self.new ≡ self.old }
    {
        match take_kind(&mut self.nest, self.state, kind, had_line_break) {
            Some(state) => {
                self.state = state;
                true
            }
            None => false,
        }
    }

    /// Takes one token more into account. It does not allocate where at most 64 frames enclose the place.
    ///
    /// # Errors
    ///
    /// `AllocError` where allocation fails for what the token opens. The track is then unchanged.
    pub fn step(&mut self, part: &Part) -> Result<(), AllocError>
        ensures step { OnOk result (self.new ≡ tracks.stepped self.old part.now) }
        ensures err { OnErr result (self.new ≡ self.old) }
        ensures free { IsShallow self.old.nest → IsOk result }
    {
        self.nest.reserve(2 * MOST_READS)?;
        self.state = read(&mut self.nest, self.state, self.typescript, *part);
        Ok(())
    }

    /// What is expected next.
    pub fn state(&self) -> State
        ensures { result ≡ self.now.state }
    {
        self.state
    }

    /// The innermost bracket that is open, or mark, where there is one.
    pub fn top(&self) -> Option<FrameKind>
        ensures { result ≡ nests.top self.now.nest }
    {
        self.nest.top()
    }

    /// Whether a slash that comes next, with or without `=` behind it, begins a regular expression (ECMA-262, 12.1).
    pub fn expects_operand(&self, is_assign: bool) -> bool
        ensures { result ≡ slashes.expects_operand self.now is_assign }
    {
        expects_operand(&self.nest, self.state, is_assign)
    }

    /// The same track. It does not allocate where at most 64 frames enclose the place.
    ///
    /// # Errors
    ///
    /// `AllocError` where it can't be allocated.
    pub fn copy(&self) -> Result<Track, AllocError>
        ensures copy { IfOk result (λ copy. copy ≡ self.now) }
        ensures free { IsShallow self.now.nest → IsOk result }
    {
        Ok(Track {
            state: self.state,
            nest: self.nest.copy()?,
            typescript: self.typescript,
        })
    }
}
