//! The parser's errors that hold nothing, by their names as constants of `SyntaxError`.

use ecma_token::{FixedError, SyntaxError};

// Each name is that of a constant and of the `FixedError` that it stands for.
macro_rules! named_among {
    ($error:expr; $($name:ident),* $(,)?) => {
        match $error {
            $(&SyntaxError::$name => Some(FixedError::$name),)*
            _ => None,
        }
    };
}

// The first of the constants that this error is: each error has to be its own.
pub fn named(error: &SyntaxError) -> Option<FixedError> {
    named_among!(
        error;
        Eof, DeclNotAllowed, UsingDeclNotAllowed, UsingDeclNotAllowedForForInLoop,
        UsingDeclNotEnabled, InvalidNameInUsingDecl, InitRequiredForUsingDecl,
        PrivateNameInInterface, InvalidSuperCall, InvalidSuper, InvalidSuperPrivateName,
        InvalidNewTarget, InvalidImport, ArrowNotAllowed, ExportNotAllowed,
        GetterSetterCannotBeReadonly, GetterSetterCannotBeOptional, GetterParam, SetterParam,
        TopLevelAwaitInScript, SetterParamRequired, RestPatInSetter, InvalidIdentInAsync,
        EvalAndArgumentsInStrict, ArgumentsInClassField, IllegalLanguageModeDirective, Hash,
        LineBreakInThrow, LineBreakBeforeArrow, ReservedWordInImport, AssignProperty, AwaitStar,
        ReservedWordInObjShorthandOrPat, NullishCoalescingWithLogicalOp, CommaAfterRestElement,
        NonLastRestParam, SpreadInParenExpr, EmptyParenExpr, InvalidPat, InvalidExpr,
        NotSimpleAssign, InvalidAssignTarget, ExpectedIdent, ExpectedSemi, AsyncGenerator,
        NonTopLevelImportExport, ImportExportInScript, ImportMetaInScript, PatVarWithoutInit,
        WithInStrict, ReturnNotAllowed, TooManyVarInForInHead, VarInitializerInForInHead,
        LabelledGeneratorOrAsync, LabelledFunctionInStrict, YieldParamInGen, AwaitParamInAsync,
        AwaitForStmt, AwaitInFunction, UnterminatedJSXContents, EmptyJSXAttr, InvalidJSXValue,
        JSXExpectedClosingTagForLtGt, InvalidLeadingDecorator, DecoratorOnExport,
        TsRequiredAfterOptional, TsInvalidParamPropPat, SpaceBetweenHashAndIdent, AsyncConstructor,
        PropertyNamedConstructor, PrivateConstructor, ConstructorAccessor, ReadOnlyMethod,
        GeneratorConstructor, DuplicateConstructor, TsBindingPatCannotBeOptional,
        SuperCallOptional, OptChainCannotFollowConstructorCall, TaggedTplInOptChain,
        TrailingCommaInsideImport, ExportDefaultWithOutFrom, DotsWithoutIdentifier,
        ExportBindingIsString, ConstDeclarationsRequireInitialization, UnknownRegExpFlags,
        TSTypeAnnotationAfterAssign, ReservedTypeAssertion, ReservedArrowTypeParam, TS1003, TS1005,
        TS1009, TS1014, TS1015, TS1031, TS1038, TS1042, TS1047, TS1048, TS1056, TS1092, TS1093,
        TS1096, TS1098, TS1100, TS1102, TS1105, TS1106, TS1107, TS1109, TS1110, TS1114, TS1115,
        TS1116, TS1123, TS1141, TS1162, TS1164, TS1171, TS1172, TS1173, TS1174, TS1175, TS1183,
        TS1184, TS1196, TS1242, TS1244, TS1245, TS1267, TS2206, TS2207, TS2369, TS2371, TS2406,
        TS2410, TS2414, TS2427, TS2452, TS2483, TS2491, TS2499, TS2703, TS4112, TS8038, TS18010,
    )
}
