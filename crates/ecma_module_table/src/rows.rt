//! Rows of imports and exports.
ghost use Rattle.std.specs.Prelude.{◌≡◌};
ghost use Rattle.ecma_module_table.specs.Rows as specs;

use ecma_span::{BytePos, Span};

/// What is looked for in a text.
#[derive(Clone, Copy, Debug, Default, PartialEq, Eq)]
pub struct ModuleOptions {
    /// Whether the text is TypeScript, where `<` may enclose types.
    pub typescript: bool,
    /// Whether a row is made of each `require("x")` of CommonJS.
    pub commonjs: bool,
}

/// How a module is named.
#[derive(Clone, Copy, Debug, PartialEq, Eq)]
pub enum Form {
    /// By `import` with a string (ECMA-262, 16.2.2).
    Static,
    /// By `export .. from` (ECMA-262, 16.2.3).
    Reexport,
    /// By a call of `import` (ECMA-262, 13.3.10).
    Call,
    /// By `import.meta`, which names none (ECMA-262, 13.3.12).
    Meta,
    /// By `import x = require("y")` of TypeScript.
    Equals,
    /// By `declare module "x"` of TypeScript.
    Ambient,
    /// By `require("x")` of CommonJS, where rows of it are asked for.
    Require,
}

/// How far a module that is imported is brought (the proposals of deferred and source phase imports).
#[derive(Clone, Copy, Debug, PartialEq, Eq)]
pub enum Phase {
    /// It is evaluated.
    Evaluation,
    /// It is evaluated when something of it is used first: `import defer`, `import.defer`.
    Defer,
    /// Its source is brought alone: `import source`, `import.source`.
    Source,
}

/// A string that names a module.
#[derive(Clone, Copy, Debug, PartialEq, Eq)]
pub struct Specifier {
    /// How many tokens come before it, so that its value is that of this token.
    pub index: usize,
    /// With its quotes.
    pub span: Span,
}

/// What stands in the parentheses of a call of `import` first.
#[derive(Clone, Copy, Debug, PartialEq, Eq)]
pub struct Argument {
    /// Where the left parenthesis stands.
    pub paren: BytePos,
    /// From the first token of the argument to its last; empty behind the parenthesis where there is none.
    pub span: Span,
}

/// An import.
#[derive(Clone, Copy, Debug, PartialEq, Eq)]
pub struct Import {
    pub form: Form,
    pub phase: Phase,
    /// Whether types alone are imported or exported, as TypeScript's `type` says of the whole statement, or where a call of
    /// `import` stands that is a type.
    pub is_type: bool,
    /// From its first token to its last; a semicolon is none of it.
    pub statement: Span,
    /// The string, where one alone stands there.
    pub specifier: Option<Specifier>,
    /// Of a call.
    pub argument: Option<Argument>,
    /// The braces behind `with` or `assert`, or the second argument of a call.
    pub attributes: Option<Span>,
    /// How many rows of exports come before those of this statement.
    pub first_export: usize,
    /// How many rows of exports are of this statement: their local names are names of the other module.
    pub exports: usize,
}

impl Import {
    /// What names the module: the string; else the argument of a call, or the statement.
    pub fn named_at(self) -> Span
        ensures { result ≡ specs.named_at self }
    {
        match (self.specifier, self.argument) {
            (Some(specifier), _) => specifier.span,
            (None, Some(argument)) => argument.span,
            (None, None) => self.statement,
        }
    }
}

/// A name that is exported.
#[derive(Clone, Copy, Debug, PartialEq, Eq)]
pub struct Export {
    /// A name, a string with its quotes, or `default`.
    pub name: Span,
    /// The name in this module, or of an `export .. from` in the other one; none where there is no such name.
    pub local: Option<Span>,
    /// Whether it is the name of a type alone, by `type` or `interface` of TypeScript.
    pub is_type: bool,
}

/// What a token tells of the rows of imports.
#[derive(Clone, Copy, Debug, PartialEq, Eq)]
pub enum ImportTold {
    /// The next row, which is complete.
    Row(Import),
    /// The next row, of a call whose parentheses are open.
    Begun(Import),
    /// The row that so many rows come before is complete, and this: its call has ended.
    Ended(usize, Import),
}

/// What a token tells.
#[derive(Clone, Copy, Debug, PartialEq, Eq)]
pub struct Told {
    pub import: Option<ImportTold>,
    /// The next row of exports.
    pub export: Option<Export>,
}
