//! Which language a text is in, and which version of ECMAScript its reader wants.
ghost use Rattle.std.specs.Prelude.{◌≡◌};
ghost use Rattle.ecma_syntax.specs.Questions as question;
ghost use Rattle.ecma_syntax.specs.Defaults as default_of;

use serde::{Deserialize, Serialize};

/// The language of a text and its options.
///
/// As data it has the key `syntax` with `ecmascript` or `typescript`, and beside it the keys of the options.
#[derive(Debug, Clone, Copy, PartialEq, Eq, Serialize, Deserialize)]
#[serde(tag = "syntax")]
pub enum Syntax {
    #[serde(rename = "ecmascript")]
    Es(EsSyntax),
    #[serde(rename = "typescript")]
    Typescript(TsSyntax),
}

/// The options of ECMAScript. A key that is not there reads as false.
#[derive(Debug, Clone, Copy, PartialEq, Eq, Default, Serialize, Deserialize)]
#[serde(rename_all = "camelCase")]
pub struct EsSyntax {
    #[serde(default)]
    pub jsx: bool,
    #[serde(rename = "functionBind")]
    #[serde(default)]
    pub fn_bind: bool,
    #[serde(default)]
    pub decorators: bool,
    #[serde(default)]
    pub decorators_before_export: bool,
    #[serde(default)]
    pub export_default_from: bool,
    #[serde(default)]
    pub import_attributes: bool,
    #[serde(default)]
    pub allow_super_outside_method: bool,
    #[serde(default)]
    pub allow_return_outside_function: bool,
    #[serde(default)]
    pub auto_accessors: bool,
    #[serde(default)]
    pub explicit_resource_management: bool,
}

/// The options of TypeScript. A key that is not there reads as false; the last three have no key.
#[derive(Debug, Clone, Copy, PartialEq, Eq, Default, Serialize, Deserialize)]
#[serde(rename_all = "camelCase")]
pub struct TsSyntax {
    #[serde(default)]
    pub tsx: bool,
    #[serde(default)]
    pub decorators: bool,
    #[serde(skip)]
    pub dts: bool,
    #[serde(skip)]
    pub no_early_errors: bool,
    #[serde(skip)]
    pub disallow_ambiguous_jsx_like: bool,
}

/// Another name of [`EsSyntax`].
pub type EsConfig = EsSyntax;

/// Another name of [`TsSyntax`].
pub type TsConfig = TsSyntax;

/// ECMAScript with every option off.
impl Default for Syntax {
    ghost is_default = { λ syntax. syntax ≡ default_of.syntax };

    fn default() -> Syntax {
        Syntax::Es(EsSyntax::default())
    }
}

/// What a text in this language may hold: each is an option's value, or the same for every text.
impl Syntax {
    /// Whether a class may have `accessor` fields.
    pub fn auto_accessors(self) -> bool
        ensures { result ≡ question.auto_accessors self }
    {
        match self {
            Syntax::Es(es) => es.auto_accessors,
            Syntax::Typescript(_) => true,
        }
    }

    /// Whether an import may have attributes.
    pub fn import_attributes(self) -> bool
        ensures { result ≡ question.import_attributes self }
    {
        match self {
            Syntax::Es(es) => es.import_attributes,
            Syntax::Typescript(_) => true,
        }
    }

    /// Whether decorators are allowed before `export`.
    pub fn decorators_before_export(self) -> bool
        ensures { result ≡ question.decorators_before_export self }
    {
        match self {
            Syntax::Es(es) => es.decorators_before_export,
            Syntax::Typescript(_) => true,
        }
    }

    /// Whether `super` is allowed outside a method.
    pub fn allow_super_outside_method(self) -> bool
        ensures { result ≡ question.allow_super_outside_method self }
    {
        match self {
            Syntax::Es(es) => es.allow_super_outside_method,
            Syntax::Typescript(_) => true,
        }
    }

    /// Whether `using` declares a resource.
    pub fn explicit_resource_management(&self) -> bool
        ensures { result ≡ question.explicit_resource_management self.now }
    {
        match self {
            Syntax::Es(es) => es.explicit_resource_management,
            Syntax::Typescript(_) => true,
        }
    }

    /// Whether `::` binds a function.
    pub fn fn_bind(self) -> bool
        ensures { result ≡ question.fn_bind self }
    {
        match self {
            Syntax::Es(es) => es.fn_bind,
            Syntax::Typescript(_) => false,
        }
    }

    /// Whether `export` may name a default without braces.
    pub fn export_default_from(self) -> bool
        ensures { result ≡ question.export_default_from self }
    {
        match self {
            Syntax::Es(es) => es.export_default_from,
            Syntax::Typescript(_) => false,
        }
    }

    /// Whether `return` is allowed outside a function.
    pub fn allow_return_outside_function(self) -> bool
        ensures { result ≡ question.allow_return_outside_function self }
    {
        match self {
            Syntax::Es(es) => es.allow_return_outside_function,
            Syntax::Typescript(_) => false,
        }
    }

    /// Whether the text may hold JSX.
    pub fn jsx(self) -> bool
        ensures { result ≡ question.jsx self }
    {
        match self {
            Syntax::Es(es) => es.jsx,
            Syntax::Typescript(ts) => ts.tsx,
        }
    }

    /// Whether the text may hold decorators.
    pub fn decorators(self) -> bool
        ensures { result ≡ question.decorators self }
    {
        match self {
            Syntax::Es(es) => es.decorators,
            Syntax::Typescript(ts) => ts.decorators,
        }
    }

    /// Whether the text is TypeScript.
    pub fn typescript(self) -> bool
        ensures { result ≡ question.typescript self }
    {
        matches!(self, Syntax::Typescript(_))
    }

    /// Whether the text is a declaration file.
    pub fn dts(self) -> bool
        ensures { result ≡ question.dts self }
    {
        match self {
            Syntax::Es(_) => false,
            Syntax::Typescript(ts) => ts.dts,
        }
    }

    /// Whether type arguments that look like JSX are refused.
    pub fn disallow_ambiguous_jsx_like(self) -> bool
        ensures { result ≡ question.disallow_ambiguous_jsx_like self }
    {
        match self {
            Syntax::Es(_) => false,
            Syntax::Typescript(ts) => ts.disallow_ambiguous_jsx_like,
        }
    }

    /// Whether early errors are reported.
    pub fn early_errors(self) -> bool
        ensures { result ≡ question.early_errors self }
    {
        match self {
            Syntax::Es(_) => true,
            Syntax::Typescript(ts) => !ts.no_early_errors,
        }
    }
}

/// The versions of ECMAScript, oldest first. The list is our own choice.
#[derive(Debug, Clone, Copy, PartialEq, Eq, PartialOrd, Ord, Hash)]
pub enum EsVersion {
    /// The third edition, of 1999.
    Es3,
    /// The fifth edition, of 2009; the default.
    Es5,
    /// The sixth edition, of 2015.
    Es2015,
    /// The seventh edition, of 2016.
    Es2016,
    /// The eighth edition, of 2017.
    Es2017,
    /// The ninth edition, of 2018.
    Es2018,
    /// The tenth edition, of 2019.
    Es2019,
    /// The eleventh edition, of 2020.
    Es2020,
    /// The twelfth edition, of 2021.
    Es2021,
    /// The thirteenth edition, of 2022.
    Es2022,
    /// What comes behind the thirteenth edition.
    EsNext,
}

/// Another name of [`EsVersion`].
pub type JscTarget = EsVersion;

/// The fifth edition.
impl Default for EsVersion {
    ghost is_default = { λ version. version ≡ default_of.version };

    fn default() -> EsVersion {
        EsVersion::Es5
    }
}

/// Which rule numbers are read by. The list and its keys are our own choice.
#[derive(Debug, Clone, Copy, PartialEq, Eq, Serialize, Deserialize)]
pub enum NumberRule {
    /// That of the crate this layer was made after; the default. Behind a number that is no big integer no name may begin;
    /// any decimal run may hold separators.
    #[serde(rename = "crate")]
    Crate,
    /// That of ECMA-262 (12.9.3). No number may have a name or a decimal digit right behind it, and decimal digits that start
    /// with a `0`, if there are several, have no separator.
    #[serde(rename = "standard")]
    Standard,
}

/// The rule of the crate.
impl Default for NumberRule {
    ghost is_default = { λ rule. rule ≡ default_of.numbers };

    fn default() -> NumberRule {
        NumberRule::Crate
    }
}
