//! Colours and marks of a text in a terminal.
//!
//! `parts.rt` gives the pieces of a text the colours of their classes, `marks.rt` each error a mark with its line, its
//! column and its message, and `shown.rt` has `ecma_show` show both. Promised: the parts of `parts_of` are the text
//! where the pieces are, and `marks_of` has a mark for each error.
#![tactic(auto)]

mod marks;
mod parts;
mod shown;

pub use marks::marks_of;
pub use parts::parts_of;
pub use shown::show_text;
