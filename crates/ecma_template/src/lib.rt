//! Readers of template text.
//!
//! `template/plain.rt` passes text that means what is written, by runs of bytes; `template/survey.rt` passes the pieces
//! of any text and makes nothing, `cooked.rt` makes what they mean. `template.rt` reads the marks between texts too.
//!
//! `specs/WrittenTemplates.antt` says which pieces of a template's text the reader's own records mean.
#![tactic(auto)]

pub mod template;

pub use template::{PlainTemplate, eat_plain_template, scan_template};
