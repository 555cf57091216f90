//! What is done with a lexer between saves and ways back.
use ecma_samples::Random;
use ecma_state::TokenContext;
use ecma_stream::{Lexer, Tokens};
use ecma_syntax::Context;
use listing::listing::{write_next, write_recorded};
use std::alloc::{AllocError, Global};

#[derive(Clone, Copy)]
pub enum Act {
    Read,
    /// Has each read begin at the slash that was answered last.
    Reread,
    /// Has reads go on again.
    Withdraw,
    Allow(bool),
    PopContext,
    PushContext(TokenContext),
    Flags(Context),
    TakeErrors,
}

const CONTEXTS: [TokenContext; 6] = [
    TokenContext::BraceStmt,
    TokenContext::BraceExpr,
    TokenContext::TplQuasi,
    TokenContext::ParenStmt { is_for_loop: true },
    TokenContext::Tpl,
    TokenContext::FnExpr,
];

fn some_context(random: &mut Random) -> TokenContext {
    let at = random.below(CONTEXTS.len());
    CONTEXTS.get(at).copied().unwrap_or_default()
}

fn some_flags(random: &mut Random) -> Context {
    Context {
        module: random.below(6) == 0,
        strict: random.below(3) == 0,
        ignore_error: random.below(5) == 0,
        in_type: random.below(4) == 0,
        in_async: random.below(2) == 0,
        ..Context::default()
    }
}

impl Act {
    /// The next act, a read most often.
    pub fn next(random: &mut Random) -> Act {
        match random.below(24) {
            0 | 1 => Act::Reread,
            2 | 3 => Act::Withdraw,
            4 => Act::Allow(random.below(2) == 0),
            5 => Act::PopContext,
            6 => Act::PushContext(some_context(random)),
            7 => Act::Flags(some_flags(random)),
            8 if random.below(4) == 0 => Act::TakeErrors,
            _ => Act::Read,
        }
    }

    /// Whether it takes away errors that the lexer has, or has those that wait recorded.
    pub fn takes(self, lexer: &Lexer) -> bool {
        match self {
            Act::TakeErrors => true,
            Act::Flags(flags) => flags.module && !lexer.module_errors().is_empty(),
            _ => false,
        }
    }
}

fn reread(lexer: &mut Lexer) {
    let slash = lexer.last_slash();
    lexer.set_next_regexp(slash);
}

fn push_context(lexer: &mut Lexer, context: TokenContext) -> Result<(), AllocError> {
    let mut contexts = lexer.token_context().copy()?;
    contexts.push(context)?;
    lexer.set_token_context(contexts);
    Ok(())
}

/// Does it, and writes what the lexer answers.
fn write_act(out: &mut String, lexer: &mut Lexer, act: Act) -> Result<(), AllocError> {
    match act {
        Act::Read => {
            write_next(out, lexer)?;
        }
        Act::Reread => reread(lexer),
        Act::Withdraw => lexer.set_next_regexp(None),
        Act::Allow(allow) => lexer.set_expr_allowed(allow),
        Act::PopContext => {
            lexer.pop_context();
        }
        Act::PushContext(context) => push_context(lexer, context)?,
        Act::Flags(flags) => lexer.set_ctx(flags)?,
        Act::TakeErrors => write_recorded(out, lexer)?,
    }
    Ok(())
}

/// Does it, and answers what the lexer does.
pub fn answer(alloc: Global, lexer: &mut Lexer, act: Act) -> Result<String, AllocError> {
    let mut out = String::new(alloc);
    write_act(&mut out, lexer, act)?;
    Ok(out)
}
