//! The bytes of the message of each of the parser's errors that hold nothing, and their names.

use super::names::named;
use super::{assert_message, span};
use ecma_token::{Error, FixedError, SyntaxError};
use std::alloc::Global;
use std::process::Abort;
use std::test::Fail;

type Row = (FixedError, &'static str);

const PARSER: &[Row] = &[
    (FixedError::Eof, "Unexpected eof"),
    (FixedError::DeclNotAllowed, "Declaration is not allowed"),
    (
        FixedError::UsingDeclNotAllowed,
        "Using declaration is not allowed",
    ),
    (
        FixedError::UsingDeclNotAllowedForForInLoop,
        "Using declaration is not allowed in for-in loop",
    ),
    (
        FixedError::UsingDeclNotEnabled,
        "Using declaration is not enabled. Set jsc.parser.explicitResourceManagement to true",
    ),
    (
        FixedError::InvalidNameInUsingDecl,
        "Using declaration only allows identifiers",
    ),
    (
        FixedError::InitRequiredForUsingDecl,
        "Using declaration requires initializer",
    ),
    (
        FixedError::PrivateNameInInterface,
        "private names are not allowed in interface",
    ),
    (FixedError::InvalidSuperCall, "Invalid `super()`"),
    (FixedError::InvalidSuper, "Invalid access to super"),
    (
        FixedError::InvalidSuperPrivateName,
        "Index super with private name is not allowed",
    ),
    (
        FixedError::InvalidNewTarget,
        "'new.target' is only allowed in the body of a function declaration, function expression, or class.",
    ),
    (FixedError::InvalidImport, "Import is not allowed here"),
    (
        FixedError::ArrowNotAllowed,
        "An arrow function is not allowed here",
    ),
    (FixedError::ExportNotAllowed, "`export` is not allowed here"),
    (
        FixedError::GetterSetterCannotBeReadonly,
        "A getter or a setter cannot be readonly",
    ),
    (
        FixedError::GetterSetterCannotBeOptional,
        "A getter or a setter cannot be optional",
    ),
    (
        FixedError::GetterParam,
        "A `get` accessor cannot have parameters",
    ),
    (
        FixedError::SetterParam,
        "A `set` accessor must have exactly one parameter",
    ),
    (
        FixedError::TopLevelAwaitInScript,
        "top level await is only allowed in module",
    ),
    (
        FixedError::SetterParamRequired,
        "Setter should have exactly one parameter",
    ),
    (
        FixedError::RestPatInSetter,
        "Rest pattern is not allowed in setter",
    ),
    (
        FixedError::InvalidIdentInAsync,
        "`await` cannot be used as an identifier in an async context",
    ),
    (
        FixedError::EvalAndArgumentsInStrict,
        "'eval' and 'arguments' cannot be used as a binding identifier in strict mode",
    ),
    (
        FixedError::ArgumentsInClassField,
        "'arguments' is only allowed in functions and class methods",
    ),
    (
        FixedError::IllegalLanguageModeDirective,
        "Illegal 'use strict' directive in function with non-simple parameter list.",
    ),
    (FixedError::Hash, "Unexpected token '#'"),
    (
        FixedError::LineBreakInThrow,
        "LineBreak cannot follow 'throw'",
    ),
    (
        FixedError::LineBreakBeforeArrow,
        "Unexpected line break between arrow head and arrow",
    ),
    (
        FixedError::ReservedWordInImport,
        "cannot import as reserved word",
    ),
];

const STATEMENTS: &[Row] = &[
    (
        FixedError::AssignProperty,
        "assignment property is invalid syntax",
    ),
    (
        FixedError::AwaitStar,
        "await* has been removed from the async functions proposal. Use Promise.all() instead.",
    ),
    (
        FixedError::ReservedWordInObjShorthandOrPat,
        "Cannot use a reserved word as a shorthand property",
    ),
    (
        FixedError::NullishCoalescingWithLogicalOp,
        "Nullish coalescing operator(??) requires parens when mixing with logical operators",
    ),
    (
        FixedError::CommaAfterRestElement,
        "Trailing comma isn't permitted after a rest element",
    ),
    (
        FixedError::NonLastRestParam,
        "Rest element must be final element",
    ),
    (
        FixedError::SpreadInParenExpr,
        "Parenthesized expression cannot contain spread operator",
    ),
    (
        FixedError::EmptyParenExpr,
        "Parenthesized expression cannot be empty",
    ),
    (FixedError::InvalidPat, "Not a pattern"),
    (FixedError::InvalidExpr, "Not an expression"),
    (FixedError::NotSimpleAssign, "Cannot assign to this"),
    (FixedError::InvalidAssignTarget, "Invalid assignment target"),
    (FixedError::ExpectedIdent, "Expected ident"),
    (FixedError::ExpectedSemi, "Expected ';' or line break"),
    (
        FixedError::AsyncGenerator,
        "An async function cannot be generator",
    ),
    (
        FixedError::NonTopLevelImportExport,
        "'import', and 'export' are not permitted here",
    ),
    (
        FixedError::ImportExportInScript,
        "'import', and 'export' cannot be used outside of module code",
    ),
    (
        FixedError::ImportMetaInScript,
        "'import.meta' cannot be used outside of module code.",
    ),
    (
        FixedError::PatVarWithoutInit,
        "Destructuring bindings require initializers",
    ),
    (
        FixedError::WithInStrict,
        "With statement are not allowed in strict mode",
    ),
    (
        FixedError::ReturnNotAllowed,
        "Return statement is not allowed here",
    ),
    (
        FixedError::TooManyVarInForInHead,
        "Expected one variable binding",
    ),
    (
        FixedError::VarInitializerInForInHead,
        "Unexpected initializer in for in/of loop",
    ),
    (
        FixedError::LabelledGeneratorOrAsync,
        "Generator or async function cannot be labelled",
    ),
    (
        FixedError::LabelledFunctionInStrict,
        "Function cannot be labelled in strict mode",
    ),
    (
        FixedError::YieldParamInGen,
        "'yield' cannot be used as a parameter within generator",
    ),
    (
        FixedError::AwaitParamInAsync,
        "`await` expressions cannot be used in a parameter initializer.",
    ),
    (
        FixedError::AwaitForStmt,
        "for await syntax is valid only for for-of statement",
    ),
    (
        FixedError::AwaitInFunction,
        "await isn't allowed in non-async function",
    ),
    (
        FixedError::UnterminatedJSXContents,
        "Unterminated JSX contents",
    ),
];

const CLASSES: &[Row] = &[
    (
        FixedError::EmptyJSXAttr,
        "JSX attributes must only be assigned a non-empty expression",
    ),
    (
        FixedError::InvalidJSXValue,
        "JSX value should be either an expression or a quoted JSX text",
    ),
    (
        FixedError::JSXExpectedClosingTagForLtGt,
        "Expected corresponding JSX closing tag for <>",
    ),
    (
        FixedError::InvalidLeadingDecorator,
        "Leading decorators must be attached to a class declaration",
    ),
    (
        FixedError::DecoratorOnExport,
        "Using the export keyword between a decorator and a class is not allowed. Please use `export @dec class` instead.",
    ),
    (
        FixedError::TsRequiredAfterOptional,
        "A required element cannot follow an optional element.",
    ),
    (
        FixedError::TsInvalidParamPropPat,
        "Typescript parameter property must be an identifier or assignment pattern",
    ),
    (
        FixedError::SpaceBetweenHashAndIdent,
        "Unexpected space between # and identifier",
    ),
    (
        FixedError::AsyncConstructor,
        "Constructor can't be an async function",
    ),
    (
        FixedError::PropertyNamedConstructor,
        "Classes may not have a non-static field named 'constructor'",
    ),
    (
        FixedError::PrivateConstructor,
        "Classes can't have a private field named '#constructor'.",
    ),
    (
        FixedError::ConstructorAccessor,
        "Class constructor can't be an accessor.",
    ),
    (FixedError::ReadOnlyMethod, "A method cannot be readonly"),
    (
        FixedError::GeneratorConstructor,
        "A constructor cannot be generator",
    ),
    (
        FixedError::DuplicateConstructor,
        "A class can only have one constructor",
    ),
    (
        FixedError::TsBindingPatCannotBeOptional,
        "A binding pattern parameter cannot be optional in an implementation signature.",
    ),
    (
        FixedError::SuperCallOptional,
        "Super call cannot be optional",
    ),
    (
        FixedError::OptChainCannotFollowConstructorCall,
        "Constructor in/after an optional chaining is not allowed.",
    ),
    (
        FixedError::TaggedTplInOptChain,
        "Tagged template literal is not allowed in optional chain.",
    ),
    (
        FixedError::TrailingCommaInsideImport,
        "Trailing comma is disallowed inside import(...) arguments",
    ),
    (
        FixedError::ExportDefaultWithOutFrom,
        "export default statements required from '...';",
    ),
    (
        FixedError::DotsWithoutIdentifier,
        "`...` must be followed by an identifier in declaration contexts",
    ),
    (
        FixedError::ExportBindingIsString,
        "A string literal cannot be used as an exported binding without `from`.",
    ),
    (
        FixedError::ConstDeclarationsRequireInitialization,
        "'const' declarations must be initialized",
    ),
    (
        FixedError::UnknownRegExpFlags,
        "Unknown regular expression flags.",
    ),
    (
        FixedError::TSTypeAnnotationAfterAssign,
        "Type annotations must come before default assignments",
    ),
    (
        FixedError::ReservedTypeAssertion,
        "This syntax is reserved in files with the .mts or .cts extension. Use an `as` expression instead.",
    ),
    (
        FixedError::ReservedArrowTypeParam,
        "This syntax is reserved in files with the .mts or .cts extension. Add a trailing comma, as in `<T,>() => ...`.",
    ),
];

const TYPESCRIPT: &[Row] = &[
    (FixedError::TS1003, "Expected an identifier"),
    (FixedError::TS1005, "Expected a semicolon"),
    (FixedError::TS1009, "Trailing comma is not allowed"),
    (
        FixedError::TS1014,
        "A rest parameter must be last in a parameter list",
    ),
    (
        FixedError::TS1015,
        "Parameter cannot have question mark and initializer",
    ),
    (
        FixedError::TS1031,
        "`declare` modifier cannot appear on class elements of this kind",
    ),
    (
        FixedError::TS1038,
        "`declare` modifier not allowed for code already in an ambient context",
    ),
    (FixedError::TS1042, "`async` modifier cannot be used here"),
    (FixedError::TS1047, "A rest parameter cannot be optional"),
    (
        FixedError::TS1048,
        "A rest parameter cannot have an initializer",
    ),
    (
        FixedError::TS1056,
        "jsc.target should be es5 or upper to use getter / setter",
    ),
    (
        FixedError::TS1092,
        "Type parameters cannot appear on a constructor declaration",
    ),
    (
        FixedError::TS1093,
        "Type annotation cannot appear on a constructor declaration",
    ),
    (
        FixedError::TS1096,
        "An index signature must have exactly one parameter",
    ),
    (FixedError::TS1098, "Type parameter list cannot be empty"),
    (
        FixedError::TS1100,
        "Invalid use of 'arguments' in strict mode",
    ),
    (
        FixedError::TS1102,
        "'delete' cannot be called on an identifier in strict mode",
    ),
    (
        FixedError::TS1105,
        "A 'break' statement can only be used within an enclosing iteration or switch statement",
    ),
    (
        FixedError::TS1106,
        "The left-hand side of a `for...of` statement may not be `async`",
    ),
    (
        FixedError::TS1107,
        "Jump target cannot cross function boundary",
    ),
    (FixedError::TS1109, "Expression expected"),
    (FixedError::TS1110, "type expected"),
    (FixedError::TS1114, "Duplicate label"),
    (
        FixedError::TS1115,
        "A 'continue' statement can only jump to a label of an enclosing iteration statement",
    ),
    (
        FixedError::TS1116,
        "A 'break' statement can only jump to a label of an enclosing statement",
    ),
    (
        FixedError::TS1123,
        "Variable declaration list cannot be empty",
    ),
    (
        FixedError::TS1141,
        "literal in an import type should be string literal",
    ),
    (
        FixedError::TS1162,
        "An object member cannot be declared optional",
    ),
    (
        FixedError::TS1164,
        "Computed property names are not allowed in enums",
    ),
    (
        FixedError::TS1171,
        "A comma expression is not allowed in a computed property name",
    ),
];

const TYPES: &[Row] = &[
    (FixedError::TS1172, "`extends` clause already seen."),
    (
        FixedError::TS1173,
        "'extends' clause must precede 'implements' clause.",
    ),
    (FixedError::TS1174, "Classes can only extend a single class"),
    (FixedError::TS1175, "`implements` clause already seen"),
    (
        FixedError::TS1183,
        "An implementation cannot be declared in ambient contexts",
    ),
    (FixedError::TS1184, "Modifiers cannot appear here"),
    (
        FixedError::TS1196,
        "Catch clause variable cannot have a type annotation",
    ),
    (
        FixedError::TS1242,
        "`abstract` modifier can only appear on a class or method declaration",
    ),
    (
        FixedError::TS1244,
        "Abstract methods can only appear within an abstract class.",
    ),
    (
        FixedError::TS1245,
        "Abstract method cannot have an implementation.",
    ),
    (
        FixedError::TS1267,
        "Abstract property cannot have an initializer.",
    ),
    (
        FixedError::TS2206,
        "The 'type' modifier cannot be used on a named import when 'import type' is used on its import statement.",
    ),
    (
        FixedError::TS2207,
        "The 'type' modifier cannot be used on a named export when 'export type' is used on its export statement.",
    ),
    (
        FixedError::TS2369,
        "A parameter property is only allowed in a constructor implementation",
    ),
    (
        FixedError::TS2371,
        "A parameter initializer is only allowed in a function or constructor implementation",
    ),
    (
        FixedError::TS2406,
        "The left-hand side of an assignment expression must be a variable or a property access.",
    ),
    (
        FixedError::TS2410,
        "The 'with' statement is not supported. All symbols in a 'with' block will have type 'any'.",
    ),
    (FixedError::TS2414, "Invalid class name"),
    (FixedError::TS2427, "interface name is invalid"),
    (
        FixedError::TS2452,
        "An enum member cannot have a numeric name",
    ),
    (
        FixedError::TS2483,
        "The left-hand side of a 'for...of' statement cannot use a type annotation",
    ),
    (
        FixedError::TS2491,
        "The left-hand side of a 'for...in' statement cannot be a destructuring pattern",
    ),
    (
        FixedError::TS2499,
        "An interface can only extend an identifier/qualified-name with optional type arguments.",
    ),
    (
        FixedError::TS2703,
        "The operand of a delete operator must be a property reference.",
    ),
    (
        FixedError::TS4112,
        "This member cannot have an 'override' modifier because its containing class does not extend another class.",
    ),
    (
        FixedError::TS8038,
        "Decorators may not appear after `export` or `export default` if they also appear before `export`.",
    ),
    (
        FixedError::TS18010,
        "An accessibility modifier cannot be used with a private identifier.",
    ),
];

// The error is the constant of its own name.
fn assert_named(rt: &impl Abort, alloc: Global, plain: FixedError) -> Result<(), Fail> {
    let error = Error::new(alloc, span(0, 1), SyntaxError::Fixed(plain))?;
    assert_eq!(rt; named(error.kind()), Some(plain));
    Ok(())
}

fn assert_rows(rt: &impl Abort, alloc: Global, rows: &[Row]) -> Result<(), Fail> {
    for (plain, want) in rows {
        assert_named(rt, alloc, *plain)?;
        assert_message(rt, alloc, SyntaxError::Fixed(*plain), want)?;
    }
    Ok(())
}

#[test]
fn parser_messages(rt: HostRuntime) -> Result<(), Fail> {
    assert_rows(&rt, rt.alloc(), PARSER)
}

#[test]
fn parser_messages_of_statements(rt: HostRuntime) -> Result<(), Fail> {
    assert_rows(&rt, rt.alloc(), STATEMENTS)
}

#[test]
fn parser_messages_of_classes(rt: HostRuntime) -> Result<(), Fail> {
    assert_rows(&rt, rt.alloc(), CLASSES)
}

#[test]
fn typescript_messages(rt: HostRuntime) -> Result<(), Fail> {
    assert_rows(&rt, rt.alloc(), TYPESCRIPT)
}

#[test]
fn typescript_messages_of_types(rt: HostRuntime) -> Result<(), Fail> {
    assert_rows(&rt, rt.alloc(), TYPES)
}

#[test]
fn an_error_is_matched_by_its_name(rt: HostRuntime) -> Result<(), Fail> {
    let error = Error::new(rt.alloc(), span(1, 2), SyntaxError::Hash)?;
    assert!(rt; matches!(error.kind(), &SyntaxError::Hash));
    assert!(rt; !matches!(error.kind(), &SyntaxError::Eof));
    Ok(())
}
