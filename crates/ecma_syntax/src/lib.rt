//! Settings, words and operators.
//!
//! Build a [`Syntax`] of [`EsSyntax`] or [`TsSyntax`], ask it what its language has, and set flags in a [`Context`]. `ecma_word`
//! is passed on, with laws. Nothing here allocates. Promised: each question is its row of `specs/Questions.antt`, and
//! `is_reserved` the table of `specs/Reserved.antt`. `settings.rt` has the languages with their options, which serde carries
//! under swc's keys; `context.rt` has the flags.
//!
//! To change a setting: `settings.rt`, `specs/Questions.antt`, `specs/Defaults.antt`; for the run `ecma_state`:
//! `settings.rt`, `specs/TokenAt.antt` or `specs/Mode.antt`; `Lexer::new`. Prove `ecma_syntax`, `ecma_state`,
//! `ecma_dispatch`, `ecma_stream`.
#![tactic(auto)]

pub mod context;
pub mod laws;
pub mod settings;

pub use context::{Context, ExpressionContext};
pub use ecma_word::{
    AssignOp, BinOpToken, BinaryOp, IdentKind, IdentLike, Keyword, KnownIdent, Word, WordKind,
    keyword, kind_in, known_ident, operator, word,
};
pub use settings::{
    EsConfig, EsSyntax, EsVersion, JscTarget, NumberRule, Syntax, TsConfig, TsSyntax,
};
