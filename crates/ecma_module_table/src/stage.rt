//! The stages of imports and exports, and what a row of their table says to do.
use crate::rows::{Form, Phase};

/// What the tokens before say of an import or an export.
#[derive(Clone, Copy, Debug, PartialEq, Eq)]
pub enum Stage {
    Nothing,
    /// Behind `.` or `#`.
    Member,
    /// Behind `import` at top level.
    Import,
    /// Behind `import` elsewhere.
    Inside,
    /// Behind `import.`.
    ImportMember,
    /// Behind `import.defer` or `import.source`.
    PhaseCall,
    /// Behind `import type`.
    ImportType,
    /// Behind `import type from`.
    ImportTypeFrom,
    /// Behind `import defer`.
    ImportDefer,
    /// Behind `import source`.
    ImportSource,
    /// Behind `import source from`.
    ImportSourceFrom,
    /// Behind a name that is imported first.
    ImportName,
    /// Behind a comma or a star of what is imported.
    ImportClause,
    /// In the braces of what is imported.
    ImportBraces,
    /// Behind the braces of what is imported or exported, where `from` comes.
    BeforeFrom,
    /// Behind `from`.
    From,
    /// The same of an export.
    ExportFrom,
    /// Behind the string that names a module.
    Specified,
    /// Behind `with` or `assert` there.
    With,
    /// In the braces behind it.
    Attributes,
    /// Behind `import x =`.
    Equals,
    /// Behind `import x = require`.
    EqualsRequire,
    /// Behind `import x = require(`.
    EqualsParen,
    /// Behind `require`, where rows of it are asked for.
    Require,
    /// Behind `require(`.
    RequireParen,
    /// Behind the string in the parentheses of `require`.
    RequireText,
    /// Behind `declare` at top level.
    Declare,
    /// Behind `declare module`.
    DeclareModule,
    /// Behind `export` at top level, and words of TypeScript that say no more.
    Export,
    /// Behind `export *`.
    ExportStar,
    /// Behind `export * as`.
    ExportStarAs,
    /// Behind a name there.
    ExportStarName,
    /// Behind `export type`.
    ExportType,
    /// In the braces of an export, where a name comes.
    Names,
    /// Behind a name there.
    Name,
    /// Behind `as` there.
    NameAs,
    /// Behind `type` there.
    NameType,
    /// Behind `type as` there.
    NameTypeAs,
    /// Behind `type as as` there.
    NameTypeAsAs,
    /// Behind the name that `as` gives.
    NameEnd,
    /// Behind the braces of an export.
    NamesEnd,
    /// Behind `export default`.
    Default,
    /// Behind `export default async`.
    DefaultAsync,
    /// Behind `export default abstract`.
    DefaultAbstract,
    /// Behind `export default function`.
    DefaultFunction,
    /// Behind `export default class`.
    DefaultClass,
    /// Behind `export default interface`.
    DefaultInterface,
    /// In the decorators of an export by default.
    DefaultDecorators,
    /// Behind `export async`.
    Async,
    /// Behind `export function`.
    Function,
    /// Behind `export class`.
    Class,
    /// Behind a word, as `enum`, behind which the name of what is declared comes.
    Declared,
    /// Behind `export interface`.
    Interface,
    /// In the decorators of an export.
    Decorators,
    /// Behind `export import`.
    ExportImport,
}

/// What a token changes.
#[derive(Clone, Copy, Debug, PartialEq, Eq)]
pub enum Change {
    Nothing,
    /// The text has other things than imports and exports.
    Other,
    /// A statement begins.
    Begin,
    /// The same, of a type, so that types alone are imported.
    BeginType,
    /// A statement begins, and the text is a module's.
    BeginExport,
    /// A statement begins that is other than an import or export.
    BeginOther,
    /// Types alone are imported or exported.
    TypeOnly,
    Phase(Phase),
    /// The string of such a statement.
    Specify(Form),
    /// The braces of the attributes begin.
    Attributes,
    /// The import ends with its string.
    Complete,
    /// It ends with its attributes.
    CompleteAttributes,
    /// It ends here.
    CompleteHere,
    /// A string, with which the declaration of a module ends.
    CompleteText,
    /// `import.meta` is complete.
    Meta,
    /// A call begins.
    Call,
    /// A name of this module, which is exported.
    Name,
    /// The same, behind the `type` of TypeScript.
    TypeName,
    /// The `as` of `type as`, which may be a name.
    Alias,
    /// It is exported by its own name.
    TellName,
    /// It is exported by the name that stands here.
    TellAs,
    /// It is exported by the name that the token before is.
    TellLast,
    /// The `as` of `type as` is exported by its own name, as a type.
    TellAlias,
    /// It is exported by the name that stands here, as a type.
    TellAliasAs,
    /// The name that stands here has no name in this module.
    TellAlone,
    /// The name that stands here is declared and exported.
    TellDeclared,
    /// The same, of a type.
    TellType,
    /// `default` is exported with no name.
    TellDefault,
    /// `default` is exported, with the name that stands here.
    TellDefaultName,
    /// The same, of a type.
    TellDefaultType,
    /// Names of variables come.
    Variables,
}

/// What a row says to do.
#[derive(Clone, Copy, Debug, PartialEq, Eq)]
pub enum Move {
    /// A change, and the stage that follows.
    To(Stage, Change),
    /// A change, and then something new may begin with the token.
    Again(Change),
}

/// What is seen beside a token.
#[derive(Clone, Copy, Debug, PartialEq, Eq)]
pub struct Seen {
    /// How many brackets are open before the token.
    pub depth: usize,
    /// Whether a line terminator comes before the token.
    pub had_line_break: bool,
    /// Whether rows of `require(..)` are asked for.
    pub commonjs: bool,
}
