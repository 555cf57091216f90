//! A text as HTML, and laws of it: its bytes, each token and comment in a span that names its class.
//!
//! Call [`html_text`], from a text to its markup. Promised: what a browser shows of the markup is the text, with U+FFFD
//! for NUL. [`html_with_errors`] takes the places where errors begin, and shows each piece that one lies in as an error, in
//! place of its own class. [`Markup`] gives the same a piece at a time, and holds no list of pieces.
//!
//! `markup.rt` writes a text with spans over pieces that cover it, `text.rt` a whole text, `page.rt` a whole page with a
//! stylesheet, `parts.rt` a text or page in parts. `laws.rt` has the laws that the markup of a text, by itself and in a
//! page, is the text, whatever its pieces are, as long as they are the text when they are joined.
//!
//! `ecma_styles/specs/Styles.antt` says which piece has which class, `Marked.antt` which is shown as an error,
//! `Markup.antt` and `Page.antt` what is written, `specs/Parts.antt` what of it is left, `Unmark.antt` what a reader of
//! HTML makes of it, `Laws.antt` the laws. `proofs/MarkupLemmas.antt`, `proofs/MarkedLemmas.antt` and
//! `proofs/PageLemmas.antt` show that this is the text.
#![tactic(auto)]

pub mod laws;
mod markup;
mod page;
mod parts;
mod text;

pub use markup::{html, html_marked};
pub use page::page_of_gathered;
pub use parts::{Markup, push_begin, push_end};
pub use text::{html_of_gathered, html_of_steps, html_text, html_with_errors};
