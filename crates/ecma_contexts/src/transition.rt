//! How a token changes the contexts, and whether an expression may begin behind it: our own choice, as ECMA-262 leaves
//! it to the parser when a slash begins a regular expression and where a template goes on.
ghost use Rattle.std.specs.Prelude.{◌≡◌, ◌<◌, ◌≤◌, length, IsOk, IfOk, OnErr};
ghost use Rattle.ecma_contexts.specs.Transition as transitions;
ghost use Rattle.ecma_contexts.specs.Transition.{transition, turned};

use crate::token_context::TokenContext;
use crate::token_contexts::TokenContexts;
use ecma_token_kind::TokenKind;
use ecma_word::{BinOpToken, IdentKind, Keyword, KnownIdent, WordKind};
use std::alloc::AllocError;

/// What comes before a token, beside the contexts.
#[derive(Debug, Clone, Copy)]
pub struct Before {
    /// Whether an expression may begin.
    pub expr_allowed: bool,
    /// The kind of the token before.
    pub previous: Option<TokenKind>,
    /// Whether a line terminator comes before that token; false where there is no token.
    pub previous_flag: bool,
}

/// Whether an expression may follow what ends with this context.
fn ends_statement(context: TokenContext) -> bool
    ensures { result ≡ transitions.ends_statement context }
{
    matches!(
        context,
        TokenContext::BraceStmt
            | TokenContext::ParenStmt { .. }
            | TokenContext::JSXOpeningTag
            | TokenContext::JSXClosingTag
    )
}

impl TokenContexts {
    /// Whether a template's text is read.
    pub fn is_in_template(&self) -> bool
        ensures { result ≡ transitions.tpl_on_top self.now }
    {
        matches!(self.current(), Some(TokenContext::Tpl))
    }

    /// Ends a context at `)` or `}`, and that of a function or class around a block that ends; whether an expression may
    /// begin then. The outermost context stays.
    #[inline(never)]
    pub fn close(&mut self) -> bool
        ensures { turned self.new result ≡ transitions.closed self.old }
    {
        if self.len() <= 1 {
            return true;
        }
        match self.pop() {
            Some(TokenContext::BraceStmt) => match self.current() {
                Some(TokenContext::FnExpr | TokenContext::ClassExpr) => {
                    let _ = self.pop();
                    false
                }
                _ => true,
            },
            Some(TokenContext::TplQuasi) => !self.is_in_template(),
            Some(ended) => ends_statement(ended),
            None => true,
        }
    }

    /// Ends the context of a function or class at `:`; an expression may begin then.
    #[inline(always)]
    pub fn end_definition(&mut self) -> bool
        ensures { turned self.new result ≡ transitions.coloned self.old }
    {
        if let Some(TokenContext::FnExpr | TokenContext::ClassExpr) = self.current() {
            let _ = self.pop();
        }
        true
    }

    /// Ends or begins a template at a back quote.
    fn quote(&mut self) -> Result<(), AllocError>
        ensures ok { IfOk result (λ _. self.new ≡ transitions.quoted self.old) }
        ensures err { OnErr result (self.new ≡ self.old) }
        ensures free { length self.old < 128 → IsOk result }
        ensures ends { length (transitions.quoted self.old) ≤ length self.old → IsOk result }
    {
        if self.is_in_template() {
            let _ = self.pop();
            Ok(())
        } else {
            self.push(TokenContext::Tpl)
        }
    }
}

/// Whether `{` begins a block behind `:`.
fn is_block_behind_colon(contexts: &TokenContexts, expr_allowed: bool) -> bool
    ensures { result ≡ transitions.block_behind_colon contexts.now expr_allowed }
{
    match contexts.current() {
        Some(TokenContext::BraceStmt) => true,
        Some(TokenContext::BraceExpr) => false,
        _ => !expr_allowed,
    }
}

/// Whether `{` begins a block behind `{`.
fn is_block_behind_brace(contexts: &TokenContexts) -> bool
    ensures { result ≡ transitions.block_behind_brace contexts.now }
{
    match contexts.current() {
        Some(TokenContext::BraceStmt) => true,
        Some(TokenContext::BraceExpr) => {
            matches!(contexts.around_current(), Some(TokenContext::JSXOpeningTag))
        }
        _ => false,
    }
}

/// Whether the kind is that of a word that declares variables.
#[inline(always)]
fn declares(previous: Option<TokenKind>) -> bool
    ensures { result ≡ transitions.declares previous }
{
    matches!(
        previous,
        Some(TokenKind::Word(WordKind::Keyword(Keyword::Let | Keyword::Const | Keyword::Var)))
    )
}

/// Whether `of` in the head of a `for` comes behind what is iterated with, so that it isn't itself a name.
fn is_not_before_expr(previous: Option<TokenKind>) -> bool
    ensures { result ≡ transitions.not_before_expr previous }
{
    match previous {
        Some(kind) => !kind.before_expr(),
        None => true,
    }
}

/// The context that `(` begins.
pub fn paren_behind(previous: Option<TokenKind>) -> TokenContext
    ensures { result ≡ transitions.paren_behind previous }
{
    match previous {
        Some(TokenKind::Word(WordKind::Keyword(Keyword::If | Keyword::With | Keyword::While))) => {
            TokenContext::ParenStmt { is_for_loop: false }
        }
        Some(TokenKind::Word(WordKind::Keyword(Keyword::For))) => {
            TokenContext::ParenStmt { is_for_loop: true }
        }
        _ => TokenContext::ParenExpr,
    }
}

impl Before {
    /// Whether `{` begins a block.
    fn is_brace_block(self, contexts: &TokenContexts, flag: bool) -> bool
        ensures { result ≡ transitions.brace_block contexts.now self.previous flag self.expr_allowed }
    {
        match self.previous {
            None => true,
            Some(TokenKind::Colon) => is_block_behind_colon(contexts, self.expr_allowed),
            Some(TokenKind::Word(WordKind::Keyword(Keyword::Return | Keyword::Yield))) => flag,
            Some(
                TokenKind::Word(WordKind::Keyword(Keyword::Else))
                | TokenKind::Semi
                | TokenKind::RParen,
            ) => true,
            Some(TokenKind::LBrace) => is_block_behind_brace(contexts),
            Some(TokenKind::BinOp(BinOpToken::Lt | BinOpToken::Gt) | TokenKind::Arrow) => true,
            Some(kind) => flag && kind.is_other() && !kind.before_expr() || !self.expr_allowed,
        }
    }

    /// The context that `{` begins, with or without a line terminator before it (`flag`).
    pub fn brace(self, contexts: &TokenContexts, flag: bool) -> TokenContext
        ensures { result ≡ transitions.brace_behind self contexts.now flag }
    {
        if self.is_brace_block(contexts, flag) {
            TokenContext::BraceStmt
        } else {
            TokenContext::BraceExpr
        }
    }

    /// Whether an expression may begin behind a name that isn't `of` in the head of a `for`.
    #[inline(always)]
    fn allows_behind_other(self) -> bool
        ensures { result ≡ transitions.name_declared self }
    {
        declares(self.previous) && self.previous_flag
    }

    /// Whether an expression may begin behind `of`.
    #[inline(never)]
    fn allows_behind_of(self, contexts: &TokenContexts) -> bool
        ensures { result ≡ transitions.name_allows (IdentKind.Known KnownIdent.Of) self contexts.now }
    {
        match contexts.current() {
            Some(TokenContext::ParenStmt { is_for_loop: true }) => {
                is_not_before_expr(self.previous)
            }
            _ => self.allows_behind_other(),
        }
    }

    /// Whether an expression may begin behind a name.
    #[inline(always)]
    pub fn allows_behind_name(self, name: IdentKind, contexts: &TokenContexts) -> bool
        ensures { result ≡ transitions.name_allows name self contexts.now }
    {
        match name {
            IdentKind::Known(KnownIdent::Of) => self.allows_behind_of(contexts),
            _ => self.allows_behind_other(),
        }
    }

    /// Begins the context of a function or class where an expression may begin.
    fn define(
        self,
        contexts: &mut TokenContexts,
        pushed: TokenContext,
        flag: bool,
    ) -> Result<bool, AllocError>
        ensures ok { IfOk result (λ e. turned contexts.new e ≡ transitions.defined pushed self contexts.old flag) }
        ensures err { OnErr result (contexts.new ≡ contexts.old) }
        ensures free { length contexts.old < 128 → IsOk result }
        ensures no_push { length (transitions.defined pushed self contexts.old flag).contexts ≤ length contexts.old → IsOk result }
    {
        if self.expr_allowed && !self.is_brace_block(contexts, flag) {
            contexts.push(pushed)?;
        }
        Ok(false)
    }

    /// Changes the contexts as a keyword does, with or without a line terminator before it (`flag`); whether an expression
    /// may begin behind it. This does not allocate where fewer than 128 contexts are on the stack, nor where no context is
    /// begun.
    ///
    /// # Errors
    ///
    /// `AllocError` where allocation fails for one more context. The contexts are then unchanged.
    pub fn turn_keyword(
        self,
        contexts: &mut TokenContexts,
        keyword: Keyword,
        flag: bool,
    ) -> Result<bool, AllocError>
        ensures ok { IfOk result (λ e. turned contexts.new e ≡ transitions.keyword_behind self.previous keyword self contexts.old flag) }
        ensures err { OnErr result (contexts.new ≡ contexts.old) }
        ensures free { length contexts.old < 128 → IsOk result }
        ensures no_push { length (transitions.keyword_behind self.previous keyword self contexts.old flag).contexts ≤ length contexts.old → IsOk result }
    {
        if matches!(self.previous, Some(TokenKind::Dot)) {
            return Ok(false);
        }
        match keyword {
            Keyword::Function => self.define(contexts, TokenContext::FnExpr, flag),
            Keyword::Class => self.define(contexts, TokenContext::ClassExpr, flag),
            _ => Ok(TokenKind::Word(WordKind::Keyword(keyword)).before_expr()),
        }
    }

    /// Changes the contexts as a token of this kind does, with or without a line terminator before it (`flag`); whether
    /// an expression may begin behind it. This does not allocate where fewer than 128 contexts are on the stack, nor where
    /// no context is begun.
    ///
    /// # Errors
    ///
    /// `AllocError` where allocation fails for one more context. The contexts are then unchanged.
    #[tactic(auto, unfolding(crate::specs::Transition::transition))]
    pub fn turn(
        self,
        contexts: &mut TokenContexts,
        kind: TokenKind,
        flag: bool,
    ) -> Result<bool, AllocError>
        ensures ok { IfOk result (λ e. turned contexts.new e ≡ transition self contexts.old kind flag) }
        ensures err { OnErr result (contexts.new ≡ contexts.old) }
        ensures free { length contexts.old < 128 → IsOk result }
        ensures no_push { length (transition self contexts.old kind flag).contexts ≤ length contexts.old → IsOk result }
    {
        match kind {
            TokenKind::Word(WordKind::Keyword(keyword)) => {
                self.turn_keyword(contexts, keyword, flag)
            }
            TokenKind::Word(WordKind::Ident(name)) => Ok(self.allows_behind_name(name, contexts)),
            TokenKind::RParen | TokenKind::RBrace => Ok(contexts.close()),
            TokenKind::Colon => Ok(contexts.end_definition()),
            TokenKind::LBrace => {
                let context = self.brace(contexts, flag);
                contexts.push(context)?;
                Ok(true)
            }
            TokenKind::DollarLBrace => {
                contexts.push(TokenContext::TplQuasi)?;
                Ok(true)
            }
            TokenKind::LParen => {
                contexts.push(paren_behind(self.previous))?;
                Ok(true)
            }
            TokenKind::PlusPlus | TokenKind::MinusMinus => Ok(self.expr_allowed),
            TokenKind::BackQuote => {
                contexts.quote()?;
                Ok(false)
            }
            _ => Ok(kind.before_expr()),
        }
    }
}
