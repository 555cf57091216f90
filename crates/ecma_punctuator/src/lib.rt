//! Readers of punctuators and shebangs.
//!
//! All punctuators are in one table, in which the first that fits is the longest. `alone.rt` says by the next byte that
//! a punctuator has one character; it is proved against that table.
#![tactic(auto)]

pub mod alone;
pub mod punctuator;
pub mod punctuator_kind;
pub mod shebang;

pub use alone::{alone_kind, stands_alone};
pub use punctuator::{eat_punctuator, scan_punct};
pub use punctuator_kind::PunctuatorKind;
pub use shebang::scan_shebang;
