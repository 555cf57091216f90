//! How tokens change contexts, and what is asked of the state between two reads.
use self::Step::{Innermost, Pop, Push, Take, TakeMany};
use ecma_span::{BytePos, Span};
use ecma_state::{Kept, State, TokenContext};
use ecma_syntax::{AssignOp, BinOpToken, IdentKind, Keyword, KnownIdent, Syntax, WordKind};
use ecma_token::TokenKind;
use std::alloc::{AllocError, Global};
use std::process::Abort;
use std::test::Fail;

const ASSIGN: TokenKind = TokenKind::AssignOp(AssignOp::Assign);

const FUNCTION: TokenKind = TokenKind::Word(WordKind::Keyword(Keyword::Function));

const FOR: TokenKind = TokenKind::Word(WordKind::Keyword(Keyword::For));

const NAME: TokenKind = TokenKind::Word(WordKind::Ident(IdentKind::Other));

const OF: TokenKind = TokenKind::Word(WordKind::Ident(IdentKind::Known(KnownIdent::Of)));

/// A token from one place to another; the flag says whether a line break stands before it.
fn token(kind: TokenKind, (lo, hi): (u32, u32), flag: bool) -> Option<Kept> {
    Some(Kept {
        kind,
        span: Span {
            lo: BytePos(lo),
            hi: BytePos(hi),
        },
        flag,
    })
}

/// What is done with the contexts of a state.
#[derive(Clone, Copy)]
enum Step {
    Pop,
    Push(TokenContext),
    /// Takes in a token: so many contexts are behind it, and this says whether an expression may begin there.
    Take(TokenKind, usize, bool),
    /// Takes in so many tokens of a kind: so many contexts are behind them, and in a copy.
    TakeMany(TokenKind, usize, usize),
    Innermost(TokenContext),
}

/// Takes in tokens that stand on one line.
fn take(state: &mut State, kind: TokenKind, times: usize) -> Result<(), AllocError> {
    for _ in 0..times {
        state.take(token(kind, (0, 0), false), false)?;
    }
    Ok(())
}

/// Whether the contexts are as the step says, where it is done.
fn is_done(state: &mut State, step: Step) -> Result<bool, AllocError> {
    Ok(match step {
        Pop => state.contexts.pop().is_some(),
        Push(context) => {
            state.contexts.push(context)?;
            true
        }
        Take(kind, depth, expr_allowed) => {
            take(state, kind, 1)?;
            state.contexts.len() == depth && state.expr_allowed == expr_allowed
        }
        TakeMany(kind, times, depth) => {
            take(state, kind, times)?;
            state.contexts.len() == depth && state.contexts.copy()?.len() == depth
        }
        Innermost(context) => state.contexts.current() == Some(context),
    })
}

/// Does the steps with the state before the first read of a text at place 0.
fn assert_steps(rt: &impl Abort, alloc: Global, steps: &[Step]) -> Result<(), Fail> {
    let mut state = State::new(alloc, Syntax::default(), BytePos(0));
    for (number, step) in steps.iter().enumerate() {
        assert!(rt; is_done(&mut state, *step)?, "step {number}");
    }
    Ok(())
}

const FUNCTION_EXPRESSION: &[Step] = &[
    Take(NAME, 1, false),
    Take(ASSIGN, 1, true),
    Take(FUNCTION, 2, false),
    Take(TokenKind::LParen, 3, true),
    Take(TokenKind::RParen, 2, false),
    Take(TokenKind::LBrace, 3, true),
    Take(TokenKind::RBrace, 1, false),
];

#[test]
fn a_function_in_an_expression_ends_where_its_body_does(rt: HostRuntime) -> Result<(), Fail> {
    assert_steps(&rt, rt.alloc(), FUNCTION_EXPRESSION)
}

const TEMPLATES: &[Step] = &[
    Take(TokenKind::BackQuote, 2, false),
    Take(TokenKind::Template, 2, false),
    Take(TokenKind::DollarLBrace, 3, true),
    Take(TokenKind::BackQuote, 4, false),
    Take(TokenKind::Template, 4, false),
    Take(TokenKind::BackQuote, 3, false),
    Take(TokenKind::RBrace, 2, false),
    Take(TokenKind::Template, 2, false),
    Take(TokenKind::BackQuote, 1, false),
    Innermost(TokenContext::BraceStmt),
];

#[test]
fn templates_stand_in_each_other(rt: HostRuntime) -> Result<(), Fail> {
    assert_steps(&rt, rt.alloc(), TEMPLATES)
}

const OF_NONE: &[Step] = &[Pop, Take(TokenKind::RBrace, 0, true)];

const OF_ONE: &[Step] = &[Take(TokenKind::RParen, 1, true)];

const OF_A_TEMPLATE: &[Step] = &[
    Pop,
    Push(TokenContext::Tpl),
    Take(TokenKind::Template, 1, false),
    Take(TokenKind::BackQuote, 0, false),
];

#[test]
fn contexts_may_be_few(rt: HostRuntime) -> Result<(), Fail> {
    let alloc = rt.alloc();
    assert_steps(&rt, alloc, OF_NONE)?;
    assert_steps(&rt, alloc, OF_ONE)?;
    assert_steps(&rt, alloc, OF_A_TEMPLATE)
}

const FOR_OF: &[Step] = &[
    Take(FOR, 1, false),
    Take(TokenKind::LParen, 2, true),
    Take(OF, 2, false),
    Take(OF, 2, true),
    Take(OF, 2, true),
    Take(TokenKind::RParen, 1, true),
    Take(OF, 1, false),
];

#[test]
fn of_separates_in_the_head_of_a_for(rt: HostRuntime) -> Result<(), Fail> {
    assert_steps(&rt, rt.alloc(), FOR_OF)
}

const OBJECT: &[Step] = &[
    Take(ASSIGN, 1, true),
    Take(TokenKind::LBrace, 2, true),
    Take(NAME, 2, false),
    Take(TokenKind::Colon, 2, true),
    Take(TokenKind::LBrace, 3, true),
    Take(TokenKind::RBrace, 2, false),
    Take(TokenKind::RBrace, 1, false),
];

const BLOCK: &[Step] = &[
    Take(TokenKind::LBrace, 2, true),
    Take(NAME, 2, false),
    Take(TokenKind::Colon, 2, true),
    Take(TokenKind::LBrace, 3, true),
    Take(TokenKind::RBrace, 2, true),
    Take(TokenKind::RBrace, 1, true),
];

#[test]
fn braces_are_blocks_or_objects(rt: HostRuntime) -> Result<(), Fail> {
    let alloc = rt.alloc();
    assert_steps(&rt, alloc, OBJECT)?;
    assert_steps(&rt, alloc, BLOCK)
}

const SIGNS: &[Step] = &[
    Take(TokenKind::PlusPlus, 1, true),
    Take(NAME, 1, false),
    Take(TokenKind::MinusMinus, 1, false),
    Take(TokenKind::BinOp(BinOpToken::Div), 1, true),
    Take(TokenKind::Num, 1, false),
];

#[test]
fn signs_leave_the_flag(rt: HostRuntime) -> Result<(), Fail> {
    assert_steps(&rt, rt.alloc(), SIGNS)
}

const MANY: &[Step] = &[
    TakeMany(TokenKind::LParen, 129, 130),
    TakeMany(TokenKind::RParen, 129, 1),
    Innermost(TokenContext::BraceStmt),
];

#[test]
fn contexts_may_be_many(rt: HostRuntime) -> Result<(), Fail> {
    assert_steps(&rt, rt.alloc(), MANY)
}

/// What is answered of space, line comments, block comments and template texts.
type Answers = (bool, bool, bool, bool);

fn answers(state: &State) -> Answers {
    (
        state.can_skip_space(),
        state.can_have_trailing_line_comment(),
        state.can_have_trailing_comment(),
        state.last_was_tpl_element(),
    )
}

/// A state behind a token that a text begins with.
fn behind(alloc: Global, kind: TokenKind) -> Result<State, AllocError> {
    let mut state = State::new(alloc, Syntax::default(), BytePos(0));
    state.take(token(kind, (0, 1), true), false)?;
    Ok(state)
}

/// What is answered behind a token of a kind.
const ANSWERS: &[(TokenKind, Answers)] = &[
    (NAME, (true, true, true, false)),
    (TokenKind::BackQuote, (false, true, false, false)),
    (TokenKind::Template, (true, true, false, true)),
    (
        TokenKind::BinOp(BinOpToken::Add),
        (true, false, false, false),
    ),
    (TokenKind::Semi, (true, true, true, false)),
];

#[test]
fn answers_go_by_the_token_before(rt: HostRuntime) -> Result<(), Fail> {
    for (kind, expected) in ANSWERS {
        assert!(rt; answers(&behind(rt.alloc(), *kind)?) == *expected);
    }
    Ok(())
}

#[test]
fn answers_go_by_the_start_before_any_token(rt: HostRuntime) -> Result<(), Fail> {
    let fresh = State::new(rt.alloc(), Syntax::default(), BytePos(7));
    assert!(rt; answers(&fresh) == (true, true, false, false));
    assert!(rt; fresh.around(None).end == BytePos(7));
    Ok(())
}

#[test]
fn a_copy_stays_behind(rt: HostRuntime) -> Result<(), Fail> {
    let mut state = behind(rt.alloc(), TokenKind::BackQuote)?;
    let copy = state.copy()?;
    state.take(token(TokenKind::BackQuote, (1, 2), true), false)?;
    assert!(rt; (state.can_skip_space(), copy.can_skip_space()) == (true, false));
    assert!(rt; (copy.around(None).end, copy.opened) == (BytePos(1), BytePos(0)));
    Ok(())
}
