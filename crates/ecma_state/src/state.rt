//! What a lexer keeps between two reads, and what is asked of it.
ghost use Rattle.std.specs.Prelude.{◌≡◌, ◌<◌, ◌≤◌, ◌∷◌, true, None, Some, length, IsOk, IfOk, OnOk, OnErr};
ghost use Rattle.ecma_grammar.specs.Comments.{can_trail_line, can_trail_block};
ghost use Rattle.ecma_contexts.specs.Contexts as contexts;
ghost use Rattle.ecma_state.specs.Mode.{is_tpl_element};
ghost use Rattle.ecma_state.specs.State as state;
ghost use Rattle.ecma_contexts.specs.Transition.{brace_behind, keyword_behind, paren_behind};

use crate::kept::{Kept, Seen};
use ecma_comments::Around;
use ecma_contexts::transition::{Before, paren_behind};
use ecma_contexts::{TokenContext, TokenContexts};
use ecma_place::BytePos;
use ecma_syntax::{Keyword, Syntax, WordKind};
use ecma_token::TokenKind;
use std::alloc::{AllocError, Global};
use std::marker::Model;

/// What a lexer keeps between two reads: what encloses the place that is read, and what was read before it.
#[derive(Drop)]
pub struct State {
    pub contexts: TokenContexts,
    /// Whether an expression may begin.
    pub expr_allowed: bool,
    /// Where the text begins.
    pub start: BytePos,
    /// Where the back quote is that opened a template last; the start place where none did.
    pub opened: BytePos,
    pub seen: Seen,
}

impl Model for State {
    ghost use Rattle.ecma_state.specs.State.{StateValue};

    ghost Value = { StateValue };

    ghost view = { λ s. record { contexts = s.contexts; expr_allowed = s.expr_allowed; start = s.start; opened = s.opened; seen = s.seen } };
}

impl State {
    /// The state before the first read of a text that starts at `start`, which does not allocate.
    ///
    /// It is the same whatever the syntax is, since JSX isn't read.
    pub fn new(alloc: Global, _syntax: Syntax, start: BytePos) -> State
        ensures { result ≡ state.started start }
    {
        let mut contexts = TokenContexts::new(alloc);
        // One context does not allocate, so this is never refused.
        let _ = contexts.push(TokenContext::BraceStmt);
        State {
            contexts,
            expr_allowed: true,
            start,
            opened: start,
            seen: Seen::none(),
        }
    }

    /// Whether white space may be passed over: not in a template's text, nor between JSX tags.
    pub fn can_skip_space(&self) -> bool
        ensures { result ≡ contexts.can_skip_space self.now.contexts }
    {
        !matches!(
            self.contexts.current(),
            Some(TokenContext::Tpl | TokenContext::JSXExpr)
        )
    }

    /// Whether a line comment may be the previous token's, also where there is none.
    pub fn can_have_trailing_line_comment(&self) -> bool
        ensures { result ≡ can_trail_line (state.previous self.now.seen) }
    {
        match self.seen.previous() {
            Some(kind) => kind.can_have_trailing_line_comment(),
            None => true,
        }
    }

    /// Whether a block comment may be the previous token's; not where there is none.
    pub fn can_have_trailing_comment(&self) -> bool
        ensures { result ≡ can_trail_block (state.previous self.now.seen) }
    {
        match self.seen.previous() {
            Some(kind) => kind.can_have_trailing_comment(),
            None => false,
        }
    }

    /// Whether the previous token is a template's text.
    pub fn last_was_tpl_element(&self) -> bool
        ensures { result ≡ is_tpl_element (state.previous self.now.seen) }
    {
        matches!(self.seen.previous(), Some(TokenKind::Template))
    }

    /// What the next token changes the contexts by.
    #[inline(always)]
    fn before(&self) -> Before
        ensures { result ≡ state.before_of self.now }
    {
        Before {
            expr_allowed: self.expr_allowed,
            previous: self.seen.previous(),
            previous_flag: self.seen.previous_flag(),
        }
    }

    /// Where the token before ends; the start place where there is none.
    fn end(&self) -> BytePos
        ensures { result ≡ state.end_of self.now }
    {
        match self.seen.last {
            Some(token) => token.span.hi,
            None => self.start,
        }
    }

    /// The places that the comments of a read go by, which finds a token or the end.
    pub fn around(&self, answer: Option<Kept>) -> Around
        ensures { result ≡ state.around_of self.now answer }
    {
        Around {
            start: self.start,
            end: self.end(),
            next: answer.map(|token| token.span.lo),
        }
    }

    /// Whether a token of this kind opens a template.
    fn opens_template(&self, kind: TokenKind) -> bool
        ensures { result ≡ state.opens_template self.now.contexts kind }
    {
        matches!(kind, TokenKind::BackQuote) && !self.contexts.is_in_template()
    }

    /// Changes the contexts as a token of any kind does, and remembers where it opens a template.
    #[inline(never)]
    fn turn_any(&mut self, token: Kept) -> Result<(), AllocError>
        ensures contexts { OnOk result (self.new.contexts ≡ (state.turned_by self.old (Some token)).contexts) }
        ensures allowed { OnOk result (self.new.expr_allowed ≡ (state.turned_by self.old (Some token)).expr_allowed) }
        ensures opened { OnOk result (self.new.opened ≡ state.opened_by self.old (Some token)) }
        ensures same { (self.new.start ≡ self.old.start) × (self.new.seen ≡ self.old.seen) }
        ensures err { OnErr result (self.new ≡ self.old) }
        ensures free { length self.old.contexts < 128 → IsOk result }
    {
        let opens = self.opens_template(token.kind);
        self.expr_allowed = self
            .before()
            .turn(&mut self.contexts, token.kind, token.flag)?;
        if opens {
            self.opened = token.span.lo;
        }
        Ok(())
    }

    /// Begins the context of `(`.
    #[inline(never)]
    fn open_paren(&mut self) -> Result<(), AllocError>
        ensures ok { OnOk result (self.new ≡ record self.old { contexts = paren_behind (state.previous self.old.seen) ∷ self.old.contexts; expr_allowed = true }) }
        ensures err { OnErr result (self.new ≡ self.old) }
        ensures free { length self.old.contexts < 128 → IsOk result }
    {
        self.contexts.push(paren_behind(self.seen.previous()))?;
        self.expr_allowed = true;
        Ok(())
    }

    /// Begins the context of `{`, with or without a line terminator before it.
    #[inline(never)]
    fn open_brace(&mut self, flag: bool) -> Result<(), AllocError>
        ensures ok { OnOk result (self.new ≡ record self.old { contexts = brace_behind (state.before_of self.old) self.old.contexts flag ∷ self.old.contexts; expr_allowed = true }) }
        ensures err { OnErr result (self.new ≡ self.old) }
        ensures free { length self.old.contexts < 128 → IsOk result }
    {
        let context = self.before().brace(&self.contexts, flag);
        self.contexts.push(context)?;
        self.expr_allowed = true;
        Ok(())
    }

    /// Takes in `function` or `class`, which may begin a context, or any other keyword.
    #[inline(never)]
    fn turn_definition(&mut self, keyword: Keyword, flag: bool) -> Result<(), AllocError>
        ensures contexts { OnOk result (self.new.contexts ≡ (keyword_behind (state.previous self.old.seen) keyword (state.before_of self.old) self.old.contexts flag).contexts) }
        ensures allowed { OnOk result (self.new.expr_allowed ≡ (keyword_behind (state.previous self.old.seen) keyword (state.before_of self.old) self.old.contexts flag).expr_allowed) }
        ensures same { (self.new.start ≡ self.old.start) × (self.new.opened ≡ self.old.opened) × (self.new.seen ≡ self.old.seen) }
        ensures err { OnErr result (self.new ≡ self.old) }
        ensures free { length self.old.contexts < 128 → IsOk result }
    {
        self.expr_allowed = self
            .before()
            .turn_keyword(&mut self.contexts, keyword, flag)?;
        Ok(())
    }

    /// Takes in a keyword.
    #[inline(always)]
    fn turn_keyword(&mut self, keyword: Keyword, flag: bool) -> Result<(), AllocError>
        ensures contexts { OnOk result (self.new.contexts ≡ (keyword_behind (state.previous self.old.seen) keyword (state.before_of self.old) self.old.contexts flag).contexts) }
        ensures allowed { OnOk result (self.new.expr_allowed ≡ (keyword_behind (state.previous self.old.seen) keyword (state.before_of self.old) self.old.contexts flag).expr_allowed) }
        ensures same { (self.new.start ≡ self.old.start) × (self.new.opened ≡ self.old.opened) × (self.new.seen ≡ self.old.seen) }
        ensures err { OnErr result (self.new ≡ self.old) }
        ensures free { length self.old.contexts < 128 → IsOk result }
    {
        match keyword {
            Keyword::Function | Keyword::Class => self.turn_definition(keyword, flag),
            _ => {
                self.expr_allowed = !matches!(self.seen.previous(), Some(TokenKind::Dot))
                    && TokenKind::Word(WordKind::Keyword(keyword)).before_expr();
                Ok(())
            }
        }
    }

    /// Changes the contexts as a token does, and remembers where it opens a template.
    #[tactic(auto, unfolding(ecma_contexts::specs::Transition::transition))]
    #[inline(always)]
    fn turn(&mut self, token: Kept) -> Result<(), AllocError>
        ensures contexts { OnOk result (self.new.contexts ≡ (state.turned_by self.old (Some token)).contexts) }
        ensures allowed { OnOk result (self.new.expr_allowed ≡ (state.turned_by self.old (Some token)).expr_allowed) }
        ensures opened { OnOk result (self.new.opened ≡ state.opened_by self.old (Some token)) }
        ensures same { (self.new.start ≡ self.old.start) × (self.new.seen ≡ self.old.seen) }
        ensures err { OnErr result (self.new ≡ self.old) }
        ensures free { length self.old.contexts < 128 → IsOk result }
    {
        match token.kind {
            TokenKind::Word(WordKind::Ident(name)) => {
                self.expr_allowed = self.before().allows_behind_name(name, &self.contexts);
            }
            TokenKind::Word(WordKind::Keyword(keyword)) => self.turn_keyword(keyword, token.flag)?,
            TokenKind::RParen | TokenKind::RBrace => {
                self.expr_allowed = self.contexts.close();
            }
            TokenKind::Colon => {
                self.expr_allowed = self.contexts.end_definition();
            }
            TokenKind::LParen => self.open_paren()?,
            TokenKind::LBrace => self.open_brace(token.flag)?,
            TokenKind::DollarLBrace
            | TokenKind::PlusPlus
            | TokenKind::MinusMinus
            | TokenKind::BackQuote => self.turn_any(token)?,
            _ => {
                self.expr_allowed = token.kind.before_expr();
            }
        }
        Ok(())
    }

    /// Takes in a token that is read. Fewer than 128 contexts do not allocate.
    ///
    /// # Errors
    ///
    /// `AllocError` where allocation fails for one more context. Nothing is then changed.
    #[inline(always)]
    pub fn take_token(&mut self, token: Kept) -> Result<(), AllocError>
        ensures ok { OnOk result (self.new ≡ state.behind_answer self.old token.flag (Some token)) }
        ensures err { OnErr result (self.new ≡ self.old) }
        ensures free { length self.old.contexts < 128 → IsOk result }
    {
        self.turn(token)?;
        self.seen.give(token);
        Ok(())
    }

    /// Takes in an answer: a token, or the end with the flag before it. The end does not allocate, nor do fewer than 128
    /// contexts.
    ///
    /// # Errors
    ///
    /// `AllocError` where allocation fails for one more context. Nothing is then changed.
    pub fn take(&mut self, answer: Option<Kept>, end_flag: bool) -> Result<(), AllocError>
        ensures ok { OnOk result (self.new ≡ state.behind_answer self.old end_flag answer) }
        ensures err { OnErr result (self.new ≡ self.old) }
        ensures free { length self.old.contexts < 128 → IsOk result }
        ensures ended { answer ≡ None → IsOk result }
    {
        match answer {
            Some(token) => self.take_token(token),
            None => {
                self.seen.end(end_flag);
                Ok(())
            }
        }
    }

    /// The same state, which does not allocate.
    ///
    /// # Errors
    ///
    /// `AllocError` as of [`TokenContexts::copy`].
    #[inline(always)]
    pub fn copy(&self) -> Result<State, AllocError>
        ensures same { IfOk result (λ s. s ≡ self.now) }
        ensures free { length self.now.contexts ≤ 128 → IsOk result }
    {
        Ok(State {
            contexts: self.contexts.copy()?,
            expr_allowed: self.expr_allowed,
            start: self.start,
            opened: self.opened,
            seen: self.seen,
        })
    }
}
