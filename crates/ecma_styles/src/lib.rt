//! Classes of the parts of a text: what a stylesheet or a terminal's colours name.
//!
//! `class.rt` has the classes, and the plain one of a token, by its kind and the token before; `role.rt` that by what stands
//! beside a token (`beside.rt`): the kinds of its neighbours, and what a track of the tokens (`ecma_roles`) expects before and
//! behind it. `tokens.rt` has those of a run's tokens, `pieces.rt` those of the pieces that cover a text. Promised:
//! `piece_classes` returns the class of each piece, and `token_classes` of each token, as `specs/` define them: a table in
//! `Roles.antt`, whose questions are in `Beside.antt`.
//!
//! No text is read, only kinds are. So these stay names: `NaN`, `Infinity`, `module` with no `declare` before it, type arguments
//! in an expression (`f<T>(x)`, `extends A<T>`), a function whose name is declared by `const` or called behind `?.` or type
//! arguments. A class behind `new a.` is a function, and `async` before parentheses is a keyword, though it may be called.
#![tactic(auto)]

mod beside;
mod class;
mod pieces;
mod role;
mod tokens;

pub use beside::Beside;
pub use class::Class;
pub use pieces::{class_of_piece, piece_classes, taken_behind};
pub use role::class_at;
pub use tokens::token_classes;
