//! Lines for people on standard error.
//!
//! `visible.rt` writes names, messages and whole texts so that nothing in them controls a terminal, `encoding.rt` says what is
//! wrong with bytes that are no UTF-8, `jsx.rt` whether a text looks like JSX, `line.rt` has the line about a file. Promised: what is added is the definition
//! (specs/Visible.antt), by which each character that a terminal would obey is spelled as an escape.
#![tactic(auto)]

pub mod encoding;
pub mod jsx;
pub mod line;
pub mod visible;

pub use encoding::{NotText, not_text};
pub use jsx::looks_like_jsx;
pub use line::push_line;
pub use visible::{push_bytes, push_lines, push_message, push_name};
