//! How a text is read.
ghost use Rattle.std.specs.Prelude.{◌≡◌};
ghost use Rattle.ecma_options.specs.Begin as starts;

use ecma_state::Settings;
use ecma_syntax::{Context, EsVersion, NumberRule, Syntax, TsSyntax};

/// How a text is read, as the words of a program say. By default as a script in sloppy mode, and as no TypeScript.
#[derive(Clone, Copy, Debug, Default, PartialEq, Eq)]
pub struct Options {
    /// As TypeScript.
    pub typescript: bool,
    /// As a module.
    pub module: bool,
    /// As strict code.
    pub strict: bool,
    /// With numbers by the standard's rule.
    pub standard: bool,
}

impl Options {
    /// The language, each option of it off.
    fn syntax(self) -> Syntax
        ensures { result ≡ starts.syntax self }
    {
        if self.typescript {
            Syntax::Typescript(TsSyntax::default())
        } else {
            Syntax::default()
        }
    }

    fn rule(self) -> NumberRule
        ensures { result ≡ starts.rule self }
    {
        if self.standard {
            NumberRule::Standard
        } else {
            NumberRule::default()
        }
    }

    /// The context that is set before the first token.
    pub fn context(self) -> Context
        ensures { result ≡ starts.context self }
    {
        Context {
            module: self.module,
            strict: self.strict,
            ..Context::default()
        }
    }

    /// The settings of a lexer. `comments` says whether comments are collected.
    pub fn settings(self, comments: bool) -> Settings
        ensures { result ≡ starts.settings comments self }
    {
        Settings {
            syntax: self.syntax(),
            target: EsVersion::default(),
            comments,
            numbers: self.rule(),
        }
    }
}
