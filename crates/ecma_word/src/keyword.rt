//! Keywords.
ghost use Rattle.std.specs.Prelude.{◌≡◌, ◌++◌, codes, Some};
ghost use Rattle.ecma_word.specs.Keyword.{keyword_text};

use std::fmt;

/// A keyword: the words of ECMA-262, 12.7.2, that are no literals and no `enum`, and `let`.
#[derive(Clone, Copy, PartialEq, Eq, Hash)]
pub enum Keyword {
    /// `await` (ECMA-262, 15.8).
    Await,
    /// `break` (ECMA-262, 14.9).
    Break,
    /// `case`, in a `switch` (ECMA-262, 14.12).
    Case,
    /// `catch`, behind a `try` (ECMA-262, 14.15).
    Catch,
    /// `continue` (ECMA-262, 14.8).
    Continue,
    /// `debugger` (ECMA-262, 14.16).
    Debugger,
    /// `default`, in a `switch` (ECMA-262, 14.12) or an export (16.2.3).
    Default_,
    /// `do` (ECMA-262, 14.7.2).
    Do,
    /// `else`, behind an `if` (ECMA-262, 14.6).
    Else,
    /// `finally`, behind a `try` (ECMA-262, 14.15).
    Finally,
    /// `for` (ECMA-262, 14.7.4, 14.7.5).
    For,
    /// `function` (ECMA-262, 15.2).
    Function,
    /// `if` (ECMA-262, 14.6).
    If,
    /// `return` (ECMA-262, 14.10).
    Return,
    /// `switch` (ECMA-262, 14.12).
    Switch,
    /// `throw` (ECMA-262, 14.14).
    Throw,
    /// `try` (ECMA-262, 14.15).
    Try,
    /// `var` (ECMA-262, 14.3.2).
    Var,
    /// `let`, which is reserved in strict mode code alone (ECMA-262, 14.3.1).
    Let,
    /// `const` (ECMA-262, 14.3.1).
    Const,
    /// `while` (ECMA-262, 14.7.2, 14.7.3).
    While,
    /// `with` (ECMA-262, 14.11).
    With,
    /// `new` (ECMA-262, 13.3.5).
    New,
    /// `this` (ECMA-262, 13.2.1).
    This,
    /// `super` (ECMA-262, 13.3.7).
    Super,
    /// `class` (ECMA-262, 15.7).
    Class,
    /// `extends`, in the head of a class (ECMA-262, 15.7).
    Extends,
    /// `export` (ECMA-262, 16.2.3).
    Export,
    /// `import` (ECMA-262, 16.2.2, 13.3.10).
    Import,
    /// `yield` (ECMA-262, 15.5).
    Yield,
    /// `in` (ECMA-262, 13.10).
    In,
    /// `instanceof` (ECMA-262, 13.10).
    InstanceOf,
    /// `typeof` (ECMA-262, 13.5.3).
    TypeOf,
    /// `void` (ECMA-262, 13.5.2).
    Void,
    /// `delete` (ECMA-262, 13.5.1).
    Delete,
}

impl Keyword {
    /// The keyword as it is written.
    pub fn as_str(&self) -> &'static str
        ensures { result.now ≡ keyword_text self.now }
    {
        match self {
            Keyword::Await => "await",
            Keyword::Break => "break",
            Keyword::Case => "case",
            Keyword::Catch => "catch",
            Keyword::Continue => "continue",
            Keyword::Debugger => "debugger",
            Keyword::Default_ => "default",
            Keyword::Do => "do",
            Keyword::Else => "else",
            Keyword::Finally => "finally",
            Keyword::For => "for",
            Keyword::Function => "function",
            Keyword::If => "if",
            Keyword::Return => "return",
            Keyword::Switch => "switch",
            Keyword::Throw => "throw",
            Keyword::Try => "try",
            Keyword::Var => "var",
            Keyword::Let => "let",
            Keyword::Const => "const",
            Keyword::While => "while",
            Keyword::With => "with",
            Keyword::New => "new",
            Keyword::This => "this",
            Keyword::Super => "super",
            Keyword::Class => "class",
            Keyword::Extends => "extends",
            Keyword::Export => "export",
            Keyword::Import => "import",
            Keyword::Yield => "yield",
            Keyword::In => "in",
            Keyword::InstanceOf => "instanceof",
            Keyword::TypeOf => "typeof",
            Keyword::Void => "void",
            Keyword::Delete => "delete",
        }
    }
}

/// The keyword in words, as `keyword 'let'`.
impl fmt::Debug for Keyword {
    ghost debug_output = { λ k. Some (codes "keyword '" ++ keyword_text k ++ codes "'") };

    fn fmt<W: fmt::Write>(&self, f: &mut fmt::Formatter<W>) -> fmt::Result {
        f.write_str("keyword '")?;
        f.write_str(self.as_str())?;
        f.write_str("'")
    }
}
