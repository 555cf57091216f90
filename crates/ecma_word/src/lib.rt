//! Words and operators: a word is the row of its text in one table.
//!
//! Call `Word::from_str` for the word of a text; any text that is in no row is a name that borrows it. The table has 81
//! rows (`specs/Table.antt`): 35 keywords, 3 literal words, 43 known names. `short_words.rt` finds a word of 2 to 10
//! bytes by a perfect hash of its length and three of its bytes, proved to return the table's row. `operator.rt` has
//! the operators.
#![tactic(auto)]

pub mod keyword;
pub mod known_ident;
pub mod operator;
pub mod short_words;
pub mod word;

pub use keyword::Keyword;
pub use known_ident::KnownIdent;
pub use operator::{AssignOp, BinOpToken, BinaryOp};
pub use short_words::kind_in;
pub use word::{IdentKind, IdentLike, Word, WordKind};
