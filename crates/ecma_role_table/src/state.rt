//! What is expected next.

/// What is expected next: a row of the table is looked up by it. Our own choice, as ECMA-262 leaves it to the parser.
#[derive(Clone, Copy)]
pub enum State {
    // In this order the questions that the fast path asks of states are of neighbors.
    /// An operand is expected.
    Operand,
    /// An operand is complete.
    After,
    /// Behind a name that a statement begins with.
    Label,
    /// Behind parentheses.
    Group,
    /// Behind a postfix operator or an asserted type.
    AfterPostfix,
    /// Behind a declared name.
    AfterBinding,
    /// A statement begins.
    Statement,
    /// Behind `export default`.
    ExportDefault,
    /// Behind `return`, `throw` or `yield`.
    Restricted,
    /// Behind `break` or `continue`.
    Break,
    /// Behind `default` in a `switch`.
    Default,
    /// Before the parentheses of `if`, `while`, `with`, `switch` or `catch`.
    Control,
    /// Behind `for`.
    ForKeyword,
    /// The head of a `for` begins.
    ForHead,
    /// Behind `let`.
    MaybeLet,
    /// Behind `type`.
    MaybeType,
    /// Behind `interface`.
    MaybeInterface,
    /// In the head of an enumeration.
    EnumHead,
    /// A name or pattern that is declared comes.
    Binding,
    /// Behind `import`.
    ImportStart,
    /// What is imported.
    Import,
    /// Behind `*` there.
    ImportAll,
    /// Behind `* as` there.
    ImportAs,
    /// Behind the name of a module.
    ImportEnd,
    /// Behind `with` of an import.
    ImportWith,
    /// Behind `=` of an import.
    ImportEquals,
    /// Behind a name there.
    ImportEqualsName,
    /// Behind `export`.
    Export,
    /// Behind `export type`.
    ExportType,
    /// Behind the braces of an export.
    ExportEnd,
    /// In the braces of an import or export.
    Clause,
    /// In the head of a function.
    Head,
    /// Behind its parameters.
    HeadEnd,
    /// In the head of a class.
    ClassHead,
    /// A member of a class.
    Member,
    /// Behind `async` there.
    MemberAsync,
    /// A key of an object.
    Key,
    /// Behind `async` there.
    KeyAsync,
    /// Behind a comma in an object, where `<` may have begun type arguments.
    KeyComma,
    /// Behind a word there that a method's name may follow.
    KeyCommaName,
    /// Behind another word there, which may be a type parameter.
    KeyCommaParameter,
    /// In the head of an alias of a type.
    AliasHead,
    /// In the head of an interface.
    InterfaceHead,
    /// Behind `@`.
    Decorator,
    /// Behind what decorates.
    AfterDecorator,
    /// Behind `?`.
    Conditional,
    /// Behind `=>`.
    ArrowBody,
    /// The text of a template.
    Quasi,
    /// Behind the parameters of an arrow function.
    GroupParameters,
    /// Behind `async` and parentheses.
    AsyncGroup,
    /// Behind the parameters of an async arrow function.
    AsyncGroupParameters,
    /// Behind `async`.
    Async,
    /// Behind `async` that a statement begins with.
    AsyncStatement,
    /// Behind `async as`.
    AsyncAs,
    /// Behind `async` and a name.
    AsyncParameter,
    /// Behind `async <`, or behind a comma there: a type parameter or an operand.
    TypeParameter,
    /// Behind `async` and what may be type parameters.
    AsyncTypeArguments,
    /// Behind what may be type arguments.
    TypeArguments,
    /// Behind what may be the type parameters of a function type with which type arguments begin.
    FunctionTypeArguments,
    /// Behind `import` in an expression.
    ImportExpression,
    /// Behind a dot.
    Property,
    /// Behind `?.`.
    OptionalProperty,
    /// Behind the braces of an arrow function.
    ArrowEnd,
    /// A type is expected.
    TypeOperand,
    /// A type is complete that is a name.
    TypeName,
    /// Another type is complete.
    TypeEnd,
    /// What may be parameters of a function type is complete.
    TypeParameters,
    /// Behind `asserts` in a type.
    Asserts,
    /// Behind a dot in a type.
    TypeProperty,
    /// A parenthesis of a type begins.
    TypeParen,
    /// Behind a name there.
    TypeParenName,
    /// In the brackets of a type.
    TypeBrackets,
}
