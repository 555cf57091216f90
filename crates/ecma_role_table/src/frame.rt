//! What encloses the place that is read.
ghost use Rattle.std.specs.Prelude.{◌≡◌};
ghost use Rattle.ecma_role_table.specs.Frames as frames;

/// Whether the function around is async, so that `await` is a keyword, or a generator, so that `yield` is one.
#[derive(Clone, Copy, Default)]
pub struct Around {
    pub is_async: bool,
    pub is_generator: bool,
}

/// A bracket that is open, or a mark: what waits for something and is no bracket.
#[derive(Clone, Copy, Default)]
pub enum FrameKind {
    /// Braces: a block.
    #[default]
    Block,
    /// Braces: the body of a function declaration.
    Function,
    /// Braces: the body of a function expression.
    FunctionExpression,
    /// Braces: the body of a method.
    Method,
    /// Braces: the body of an arrow function.
    ArrowBody,
    /// Braces: a static block.
    Static,
    /// Braces: the body of a class declaration.
    Class,
    /// Braces: the body of a class expression.
    ClassExpression,
    /// Braces: an object or a pattern.
    Object,
    /// Braces: the body of an enumeration.
    Enum,
    /// Parentheses: a group, or the parameters of an arrow function.
    Paren,
    /// Parentheses: the parameters of an arrow function.
    ParenParameters,
    /// Parentheses behind `async`: a call, or parameters.
    AsyncParen,
    /// Parentheses: the parameters of an async arrow function.
    AsyncParenParameters,
    /// Parentheses behind an operand.
    Call,
    /// Parentheses: the parameters of a function or method.
    Parameters,
    /// Parentheses of `if`, `while`, `with`, `switch` or `catch`.
    Control,
    /// Parentheses of `for`.
    For,
    /// Brackets: an array or an index.
    Bracket,
    /// Brackets: a computed key.
    Computed,
    /// A template.
    Template,
    /// Braces of an import, an export or its attributes.
    Clause,
    /// Parentheses inside a type's brackets.
    InnerParen,
    /// Brackets inside a type's brackets.
    InnerBracket,
    /// Braces inside a type's brackets.
    InnerBrace,
    /// `<` inside a type's brackets.
    InnerAngle,
    /// A template inside a type's brackets.
    InnerTemplate,
    /// Parentheses of a type.
    OuterParen,
    /// Parentheses of a type that begin as a pattern does.
    OuterPattern,
    /// Parentheses: the parameters of a function type.
    OuterParameters,
    /// Brackets of a type.
    OuterBracket,
    /// Braces of a type.
    OuterBrace,
    /// `<` of type arguments in a type.
    OuterAngle,
    /// A template that is a type.
    OuterTemplate,
    /// `<` of a function type's parameters.
    ParametersAngle,
    /// `<` of an assertion or of an arrow function's parameters.
    OperandAngle,
    /// `<` in a head.
    HeadAngle,
    /// `<` of type arguments behind an operand, where no comparison can stand.
    ArgumentsAngle,
    /// `<` of type parameters behind `async`, where no comparison can stand.
    AsyncAngle,
    /// Braces: the body of an interface.
    Interface,
    /// Mark: `?` that waits for its colon.
    Conditional,
    /// Mark: `case` that waits for its colon.
    Case,
    /// Mark: an arrow function whose body is an expression.
    Arrow,
    /// Mark: `let`, `const` or `var`.
    Declaration,
    /// Mark: `<` behind an operand, less than or type arguments.
    Candidate,
    /// Mark: `<` behind `async`.
    AsyncCandidate,
    /// Mark: the second `<` of `<<` behind an operand: a shift, or the parameters of a function type.
    ParametersCandidate,
    /// Mark: the head of a function declaration.
    FunctionHead,
    /// Mark: the head of a function expression.
    FunctionExpressionHead,
    /// Mark: the head of a method.
    MethodHead,
    /// Mark: the head of a class declaration.
    ClassHead,
    /// Mark: the head of a class expression.
    ClassExpressionHead,
    /// Mark: the head of an alias of a type.
    AliasHead,
    /// Mark: the head of an interface.
    InterfaceHead,
    /// Mark: an import.
    ImportHead,
    /// Mark: an export.
    ExportHead,
    /// Mark: a decorator before a statement.
    StatementDecorator,
    /// Mark: a decorator before a member.
    MemberDecorator,
    /// Mark: a decorator before an operand.
    OperandDecorator,
    /// Mark: the type of a name, a parameter or a member, or what a function returns.
    Annotation,
    /// Mark: the type behind `as` or `satisfies`.
    Assertion,
    /// Mark: the type of an alias.
    AliasType,
    /// Mark: what an arrow function returns.
    ReturnType,
    /// Mark: what an async arrow function returns.
    AsyncReturnType,
    /// Mark: the type behind `extends` in a type.
    TypeExtends,
    /// Mark: a conditional type whose colon is waited for.
    TypeConditional,
}

/// A level of nesting.
#[derive(Clone, Copy, Default)]
pub struct Frame {
    pub kind: FrameKind,
    /// What comes back when the frame goes, where its kind asks for that.
    pub kept: Around,
}

/// Whether a colon of a conditional is waited for.
pub fn over_conditional(top: Option<FrameKind>) -> bool
    ensures { result ≡ frames.over_conditional top }
{
    matches!(top, Some(FrameKind::Conditional))
}

/// Whether the parentheses of a `for` are right around.
pub fn over_for(top: Option<FrameKind>) -> bool
    ensures { result ≡ frames.over_for top }
{
    matches!(top, Some(FrameKind::For))
}

/// Whether a declaration in the parentheses of a `for` is right around.
pub fn over_declared_for(top: Option<FrameKind>, under: Option<FrameKind>) -> bool
    ensures { result ≡ frames.over_declared_for top under }
{
    matches!(
        (top, under),
        (Some(FrameKind::Declaration), Some(FrameKind::For))
    )
}

/// Whether the head of a class is right around.
pub fn over_class_head(top: Option<FrameKind>) -> bool
    ensures { result ≡ frames.over_class_head top }
{
    matches!(
        top,
        Some(FrameKind::ClassHead | FrameKind::ClassExpressionHead)
    )
}

/// Whether `<` that may have begun type arguments is right around.
pub fn over_candidate(top: Option<FrameKind>) -> bool
    ensures { result ≡ frames.over_candidate top }
{
    matches!(
        top,
        Some(FrameKind::Candidate | FrameKind::AsyncCandidate | FrameKind::ParametersCandidate)
    )
}

/// Whether `<` that may have begun the type parameters of an async arrow function is right around.
pub fn over_async_candidate(top: Option<FrameKind>) -> bool
    ensures { result ≡ frames.over_async_candidate top }
{
    matches!(top, Some(FrameKind::AsyncCandidate))
}

/// Whether `<` that may have begun the parameters of a function type is right around.
pub fn over_parameters_candidate(top: Option<FrameKind>) -> bool
    ensures { result ≡ frames.over_parameters_candidate top }
{
    matches!(top, Some(FrameKind::ParametersCandidate))
}

/// Whether the place is right in what may be type arguments, or in the type that a function type there returns.
pub fn in_arguments(top: Option<FrameKind>, under: Option<FrameKind>) -> bool
    ensures { result ≡ frames.in_arguments top under }
{
    match top {
        Some(FrameKind::Arrow) => over_candidate(under),
        _ => over_candidate(top),
    }
}

/// Whether the type behind `extends` in a type is right around.
pub fn over_type_extends(top: Option<FrameKind>) -> bool
    ensures { result ≡ frames.over_type_extends top }
{
    matches!(top, Some(FrameKind::TypeExtends))
}

/// Whether a conditional type is right around.
pub fn over_type_conditional(top: Option<FrameKind>) -> bool
    ensures { result ≡ frames.over_type_conditional top }
{
    matches!(top, Some(FrameKind::TypeConditional))
}

/// Kinds of frames that go together.
#[derive(Clone, Copy)]
pub enum Kinds {
    Marks,
    /// Marks, and `<` in types and heads.
    MarksAndAngles,
    /// `<` behind an operand.
    Candidates,
    /// `?` that waits for its colon, and arrow functions whose body is an expression.
    Conditionals,
    /// `extends` in a type and what follows it.
    TypeConditions,
    /// All but braces and templates.
    InsideBraces,
}

impl FrameKind {
    /// Whether it is no bracket.
    pub fn is_mark(self) -> bool
        ensures { result ≡ frames.is_mark self }
    {
        matches!(
            self,
            FrameKind::Conditional
                | FrameKind::Case
                | FrameKind::Arrow
                | FrameKind::Declaration
                | FrameKind::Candidate
                | FrameKind::AsyncCandidate
                | FrameKind::ParametersCandidate
                | FrameKind::FunctionHead
                | FrameKind::FunctionExpressionHead
                | FrameKind::MethodHead
                | FrameKind::ClassHead
                | FrameKind::ClassExpressionHead
                | FrameKind::AliasHead
                | FrameKind::InterfaceHead
                | FrameKind::ImportHead
                | FrameKind::ExportHead
                | FrameKind::StatementDecorator
                | FrameKind::MemberDecorator
                | FrameKind::OperandDecorator
                | FrameKind::Annotation
                | FrameKind::Assertion
                | FrameKind::AliasType
                | FrameKind::ReturnType
                | FrameKind::AsyncReturnType
                | FrameKind::TypeExtends
                | FrameKind::TypeConditional
        )
    }

    /// Whether it is `<` of a type or head.
    pub fn is_angle(self) -> bool
        ensures { result ≡ frames.is_angle self }
    {
        matches!(
            self,
            FrameKind::InnerAngle
                | FrameKind::OuterAngle
                | FrameKind::ParametersAngle
                | FrameKind::OperandAngle
                | FrameKind::HeadAngle
                | FrameKind::ArgumentsAngle
                | FrameKind::AsyncAngle
        )
    }

    /// Whether a right brace ends it, or what is in it.
    pub fn is_brace(self) -> bool
        ensures { result ≡ frames.is_brace self }
    {
        matches!(
            self,
            FrameKind::Block
                | FrameKind::Function
                | FrameKind::FunctionExpression
                | FrameKind::Method
                | FrameKind::ArrowBody
                | FrameKind::Static
                | FrameKind::Class
                | FrameKind::ClassExpression
                | FrameKind::Object
                | FrameKind::Enum
                | FrameKind::Clause
                | FrameKind::Template
                | FrameKind::InnerBrace
                | FrameKind::InnerTemplate
                | FrameKind::OuterBrace
                | FrameKind::OuterTemplate
                | FrameKind::Interface
        )
    }

    /// Whether it is a template.
    pub fn is_template(self) -> bool
        ensures { result ≡ frames.is_template self }
    {
        matches!(
            self,
            FrameKind::Template | FrameKind::InnerTemplate | FrameKind::OuterTemplate
        )
    }

    /// Whether it gives back, when it goes, what the function around is.
    pub fn gives_around(self) -> bool
        ensures { result ≡ frames.gives_around self }
    {
        matches!(
            self,
            FrameKind::Function
                | FrameKind::FunctionExpression
                | FrameKind::Method
                | FrameKind::ArrowBody
                | FrameKind::Arrow
                | FrameKind::FunctionHead
                | FrameKind::FunctionExpressionHead
                | FrameKind::MethodHead
                | FrameKind::Static
        )
    }

    /// Whether it gives back, when it goes, what the method is whose name is read.
    pub fn gives_pending(self) -> bool
        ensures { result ≡ frames.gives_pending self }
    {
        matches!(self, FrameKind::Computed)
    }

    /// Whether frames of this kind are among these.
    pub fn is_of(self, kinds: Kinds) -> bool
        ensures { result ≡ frames.is_of kinds self }
    {
        match kinds {
            Kinds::Marks => self.is_mark(),
            Kinds::MarksAndAngles => self.is_mark() || self.is_angle(),
            Kinds::Candidates => over_candidate(Some(self)),
            Kinds::Conditionals => { matches!(self, FrameKind::Conditional | FrameKind::Arrow) }
            Kinds::TypeConditions => {
                matches!(self, FrameKind::TypeExtends | FrameKind::TypeConditional)
            }
            Kinds::InsideBraces => !self.is_brace(),
        }
    }
}
