//! Lines of a text's imports: the strings that name modules, found by its tokens.
//!
//! Call [`imports_text`]. `stage.rt` has the table of stages (`specs/Stages.antt`): what each kind of token is to an
//! import, and where that leads; `imported.rt` goes through tokens by it, and needs no lexer; `lines.rt` has the lines
//! of a text.
#![tactic(auto)]

mod imported;
mod lines;
mod stage;

pub use imported::{Form, Specifier, specifiers};
pub use lines::{imports_of_steps, imports_text, specifier_lines};
