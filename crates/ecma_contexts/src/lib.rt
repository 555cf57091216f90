//! The stack of contexts: what encloses the place that is read.
//!
//! `token_contexts.rt` has the stack (two contexts in a byte by `context_pair.rt`, of which copies share the outer
//! ones: `pair_stack.rt`), and `transition.rt` how a token changes it.
#![tactic(auto)]

pub mod context_pair;
mod near_pairs;
mod pair_stack;
mod shared_pairs;
pub mod token_context;
pub mod token_contexts;
pub mod transition;

pub use token_context::TokenContext;
pub use token_contexts::TokenContexts;
