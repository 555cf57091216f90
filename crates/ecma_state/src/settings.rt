//! What a text is read by.

use ecma_syntax::{EsVersion, NumberRule, Syntax};

/// What a text is read by, from its start to its end.
#[derive(Debug, Clone, Copy, PartialEq, Eq)]
pub struct Settings {
    pub syntax: Syntax,
    /// The version of ECMAScript that the code is for.
    pub target: EsVersion,
    /// Whether comments are collected.
    pub comments: bool,
    /// The rule that numbers are read by.
    pub numbers: NumberRule,
}
